// One inner run: the search from a position, with the list that the rules of its first turn reach, and the room that it takes. It rests
// on `search_turns`, `search_steps` and `position`. Every public function is for `judging` and `marking`, `ROOM` for `host` and
// `reporting`.
#![tactic(auto)]

ghost use Rattle.std.specs.Prelude.{◌≡◌, ◌≤◌, length};
ghost use Rattle.search_words.specs.TurnRoom.{zeroed};
ghost use Rattle.search_steps.specs.TurnReply.{room_of};
ghost use Rattle.search_run.specs.FirstTurn.{ZeroBelow};
ghost use Rattle.search_run.specs.Run.{room_words, Startable, Runs};

mod first;

use first::{first_words, leaf_of, list_of};
use position::Position;
use rule_set::RuleSet;
use search_steps::Outcome;
use search_turns::turn;
use search_words::zero_words;
use solver_arrays::Arrays;

// What a run starts from.
#[derive(Clone, Copy)]
pub struct Start {
    pub set: RuleSet,
    pub position: Position,
}

// What a search from a position comes to: its outcome, the list that the rules of the first turn reached, and the leaf of a won search.
#[derive(Clone, Copy)]
pub struct Ran {
    pub outcome: Outcome,
    pub list: [u16; 32],
    pub leaf: [u16; 32],
}

// The words that every file's search can do with, for the entries that hold their own room: `room_needed(32)`.
pub const ROOM: usize = 4224;

// How many words a search of n variables has.
pub fn room_needed(n: usize) -> usize
    requires { n ≤ 32 }
    ensures { result ≡ room_words n }
{
    128 * (n + 1)
}

// The search in the room of its first turn, whose words are zero before and afterwards.
fn run_in(arrays: &Arrays, s: Start, room: &mut [u16]) -> Ran
    requires { Startable s arrays.now × (room_of arrays.now.n s.position.plays ≤ length room.old)
        × ZeroBelow (room_of arrays.now.n s.position.plays) room.old }
    ensures { Runs arrays.now s.set.bits s.position result
        × (room.new ≡ room.old) }
{
    let p = s.position;
    first_words(arrays, p, room);
    let outcome = turn(arrays, s.set, 0, p.plays, room);
    let list = list_of(arrays, room);
    let leaf = leaf_of(arrays, room);
    zero_words(0, 128, room);
    Ran {
        outcome,
        list,
        leaf,
    }
}

// The search from a start. Whatever the first words of the room are, they are zero afterwards.
pub fn run(arrays: &Arrays, s: Start, room: &mut [u16]) -> Ran
    requires { Startable s arrays.now × (room_words arrays.now.n ≤ length room.old) }
    ensures { Runs arrays.now s.set.bits s.position result
        × (room.new ≡ zeroed 0 (room_words arrays.now.n) room.old) }
{
    zero_words(0, room_needed(arrays.n), room);
    let d = s.position.plays;
    run_in(arrays, s, &mut room[128 * d..])
}

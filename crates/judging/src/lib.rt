// Searching and judging a position: all that a search finds, and whether the game is won. It rests on `ternary_decoder`, `position` and
// `search_run`. `search` and `judge` are open to callers; `room_test` is for `marking`.
#![tactic(auto)]

ghost use Rattle.std.specs.Prelude.{◌≡◌, length};
ghost use Rattle.solver_arrays.specs.Arrays.{Posed};
ghost use Rattle.judging.specs.Judging.{told, judge_told, judge_left};
ghost use Rattle.judging.specs.Searching.{found, search_found};
ghost use Rattle.judging.specs.Inner.{Places, Searches};

mod tests;

use position::Position;
use refusal::{Reason, Refusal};
use rule_set::RuleSet;
use search_run::{Ran, Start, room_needed, run};
use solver_arrays::Arrays;
use ternary_decoder::decode_ordinary;
use tests::place_test;
pub use tests::room_test;

// Searches under a rule set over the arrays of a problem.
fn search_with(arrays: &Arrays, p: Position, set: RuleSet, room: &mut [u16]) -> Result<Ran, Reason>
    requires { Posed arrays.now }
    ensures { Places arrays.now p set.bits
        room.old room.new result }
{
    place_test(arrays, p, room_needed(arrays.n), room.len())?;
    Ok(run(arrays, Start { set, position: p }, room))
}

// Searches under the rule set of this number.
fn search_in(arrays: &Arrays, p: Position, set: usize, room: &mut [u16]) -> Result<Ran, Reason>
    requires { Posed arrays.now }
    ensures { Searches arrays.now p set
        room.old room.new result }
{
    let s = RuleSet::new(set)?;
    search_with(arrays, p, s, room)
}

// What a search from the position finds, under the rule set of this number. A finished call leaves the words of the room
// that the search needs zero and the others as they were; a refused one leaves all.
pub fn search(f: &[u8], p: Position, set: usize, room: &mut [u16]) -> Result<Ran, Refusal>
    ensures result_value { found result ≡ search_found f.now p set (length room.old) }
    ensures room_after { room.new ≡ judge_left f.now p set room.old }
{
    let mut arrays = Arrays::empty();
    decode_ordinary(f, &mut arrays)?;
    Ok(search_in(&arrays, p, set, room)?)
}

// Whether the position is won: the verdict of a search under the rule set of this number, which leaves the room so.
pub fn judge(f: &[u8], p: Position, set: usize, room: &mut [u16]) -> Result<bool, Refusal>
    ensures result_value { told result ≡ judge_told f.now p set (length room.old) }
    ensures room_after { room.new ≡ judge_left f.now p set room.old }
{
    let r = search(f, p, set, room)?;
    Ok(r.outcome.is_won())
}

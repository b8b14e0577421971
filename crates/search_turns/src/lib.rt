// The search: two turns, one per side, that call each other until no variable is left, each in the words that it is lent (laid out as
// `search_words` says). A turn leaves in them the list that its rules reached; who lent them zeroes them. It rests on `search_steps` and
// `search_words`. `turn` is for `search_run`.
#![tactic(auto)]

ghost use Rattle.std.specs.Prelude.{◌≡◌, true, false, ◌≤◌, ◌<◌, length};
ghost use Rattle.mask.specs.Mask.{bit};
ghost use Rattle.search_steps.specs.TurnReply.{room_of, Blank, Stands, TurnReplies};

use mask::{contains, lowest, members_of};
use rule_set::RuleSet;
use search_steps::{
    Outcome, enter, jumps, last_turn, lost_after, lost_below, lost_by_rules, untried_next,
    won_below, won_here,
};
use search_words::{hand_down, start_set, take_leaf};
use solver_arrays::Arrays;

// The turn after d plays, of which those from c on are not yet checked.
#[cycle(turns)]
pub fn turn(arrays: &Arrays, set: RuleSet, c: usize, d: usize, room: &mut [u16]) -> Outcome
    requires { (d ≤ arrays.now.n) × (room_of arrays.now.n d ≤ length room.old) × Blank (room_of arrays.now.n d) room.old
        × Stands arrays.now.n arrays.now set.bits c d room.old }
    ensures { TurnReplies arrays.now.n arrays.now set.bits c d
        room.old room.new result }
{
    if d == arrays.n {
        last_turn(arrays, set, c, room)
    } else if contains(arrays.universal, d) {
        universal_turn(arrays, set, c, d, room)
    } else {
        existential_turn(arrays, set, c, d, room)
    }
}

// A turn whose variable is existential.
#[cycle(turns)]
fn existential_turn(arrays: &Arrays, set: RuleSet, c: usize, d: usize, room: &mut [u16]) -> Outcome
    requires { (d < arrays.now.n) × (bit arrays.now.universal d ≡ false) × (room_of arrays.now.n d ≤ length room.old)
        × Blank (room_of arrays.now.n d) room.old
        × Stands arrays.now.n arrays.now set.bits c d room.old }
    ensures { TurnReplies arrays.now.n arrays.now set.bits c d
        room.old room.new result }
{
    let e = match enter(arrays, set, c, d, room) {
        Ok(e) => e,
        Err(loss) => return lost_by_rules(set, d, loss.conflict),
    };
    let mut joined = start_set(arrays, d, e.narrowed, room);
    for a in members_of(e.left) {
        hand_down(d, a, room);
        match turn(arrays, set, d, d + 1, &mut room[128..]) {
            Outcome::Won => return won_below(room),
            Outcome::Lost { conflict, .. } => {
                if jumps(set, d, conflict) {
                    return lost_below(set, d, conflict, room);
                }
                joined |= conflict;
            }
        }
    }
    lost_below(set, d, joined, room)
}

// A turn whose variable is universal.
#[cycle(turns)]
fn universal_turn(arrays: &Arrays, set: RuleSet, c: usize, d: usize, room: &mut [u16]) -> Outcome
    requires { (d < arrays.now.n) × (bit arrays.now.universal d ≡ true) × (room_of arrays.now.n d ≤ length room.old)
        × Blank (room_of arrays.now.n d) room.old
        × Stands arrays.now.n arrays.now set.bits c d room.old }
    ensures { TurnReplies arrays.now.n arrays.now set.bits c d
        room.old room.new result }
{
    let e = match enter(arrays, set, c, d, room) {
        Ok(e) => e,
        Err(loss) => return lost_by_rules(set, d, loss.conflict),
    };
    // A `while`, since each leaf decides which values are left.
    let mut left = e.left;
    while left != 0 {
        let a = lowest(left) as usize;
        hand_down(d, a, room);
        match turn(arrays, set, d, d + 1, &mut room[128..]) {
            Outcome::Won => take_leaf(room),
            Outcome::Lost { conflict, .. } => return lost_after(set, d, conflict, room),
        }
        left = untried_next(arrays, set, d, left, a, room);
    }
    won_here(room)
}

// Marks: which values of a position's next variable win when played, each searched by itself. It rests on `ternary_decoder`, `search_run`
// and the tests of `judging`. `mark` is open to callers.
#![tactic(auto)]

ghost use Rattle.std.specs.Prelude.{◌≡◌, length};
ghost use Rattle.solver_arrays.specs.Arrays.{Posed};
ghost use Rattle.marking.specs.Marking.{told, mark_place_test, mark_told, mark_left, MarksWith, MarksIn};

mod values;

use judging::room_test;
use position::{Position, fit_test};
use refusal::{Reason, Refusal, needed};
use rule_set::RuleSet;
use search_run::{Start, room_needed};
use solver_arrays::Arrays;
use ternary_decoder::decode_ordinary;
use values::winning_values;

// The winning values of a position's next variable, and its domain.
#[derive(Clone, Copy, Default)]
pub struct Marks {
    pub winning: u16,
    pub domain: u16,
}

// The tests of marking behind the rule set: 23, 22, 12.
fn mark_test(arrays: &Arrays, p: Position, room: usize, words: usize) -> Result<(), Reason>
    ensures { result ≡ mark_place_test arrays.now.own arrays.now.domains p room words }
{
    fit_test(arrays.own, &arrays.domains, p)?;
    needed(p.plays < arrays.own, Reason::Done)?;
    room_test(room, words)
}

// Marks under a rule set over the arrays of a problem.
fn mark_with(arrays: &Arrays, p: Position, set: RuleSet, room: &mut [u16]) -> Result<Marks, Reason>
    requires { Posed arrays.now }
    ensures { MarksWith arrays.now p set.bits
        room.old room.new result }
{
    mark_test(arrays, p, room_needed(arrays.n), room.len())?;
    Ok(winning_values(arrays, Start { set, position: p }, room))
}

// Marks under the rule set of this number.
fn mark_in(arrays: &Arrays, p: Position, set: usize, room: &mut [u16]) -> Result<Marks, Reason>
    requires { Posed arrays.now }
    ensures { MarksIn arrays.now p set
        room.old room.new result }
{
    let s = RuleSet::new(set)?;
    mark_with(arrays, p, s, room)
}

// The marks of the position's next variable, by searches under the rule set of this number. The room is left as by judging.
pub fn mark(f: &[u8], p: Position, set: usize, room: &mut [u16]) -> Result<Marks, Refusal>
    ensures result_value { told result ≡ mark_told f.now p set (length room.old) }
    ensures room_after { room.new ≡ mark_left f.now p set room.old }
{
    let mut arrays = Arrays::empty();
    decode_ordinary(f, &mut arrays)?;
    Ok(mark_in(&arrays, p, set, room)?)
}

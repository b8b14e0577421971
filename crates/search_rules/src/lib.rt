// Rules 2, 1 and 3 of a turn by its rule set, one after another: a loss ends the turn. Below another turn rule 1 looks only at what
// changed since, and rule 3 is left out beside rule 1. It rests on `rule_forward` and `rule_arc`. `run_rules` is for `search_steps`, and
// for the trials.
#![tactic(auto)]

ghost use Rattle.std.specs.Prelude.{◌≡◌, true, not, ◌&&◌, ◌≤◌, ◌<◌, ltb, length, is_err};
ghost use Rattle.game.specs.Rule.{uses};
ghost use Rattle.solver_arrays.specs.Words.{Nonzero};
ghost use Rattle.rule_arc.specs.ArcRule.{CalmBut};
ghost use Rattle.search_rules.specs.Reply.{narrowed_of};
ghost use Rattle.solver_arrays.specs.Words.{conflict_of};
ghost use Rattle.search_rules.specs.declared.Rule.TheVariants.{Arc};
ghost use Rattle.search_rules.specs.RuledTurn.{Stated, Outside, Settled, CheckedPlay, ChecksTurn, ArcTurn, AheadTurn, RuleTurn, RuledTurn};

use mask::{everyone, lowest, single};
use rule_arc::arc;
use rule_forward::{forward, forward_conflict, look_ahead};
use rule_set::RuleSet;
use solver_arrays::{Arrays, Loss};

// Rule 2, which checks the plays, and rule 1.
enum Rule {
    Checks,
    Arc,
}

// Rule 2 for the play of variable x: the other variables that it takes values from.
fn check_play(arrays: &Arrays, x: usize, w: &mut [u16]) -> Result<u32, Loss>
    requires { (x < arrays.now.n) × (96 ≤ length w.old) × Nonzero arrays.now.n w.old
        × Stated arrays.now.n arrays.now }
    ensures { CheckedPlay arrays.now.n arrays.now x w.old
        w.new (is_err result) (conflict_of result) (narrowed_of result) }
{
    let a = lowest(w[x]) as usize;
    let f = forward(arrays, x, a, w);
    match f.named {
        Some(k) => Err(Loss {
            conflict: forward_conflict(arrays, w, x, k),
        }),
        None => Ok(f.narrowed),
    }
}

// Rule 2 for the plays of a turn that are not yet checked.
fn check_plays(arrays: &Arrays, c: usize, d: usize, w: &mut [u16]) -> Result<u32, Loss>
    requires { (c ≤ d) × (d ≤ arrays.now.n) × (96 ≤ length w.old) × Nonzero arrays.now.n w.old
        × Stated arrays.now.n arrays.now }
    ensures { ChecksTurn arrays.now.n arrays.now true c d
        w.old w.new (is_err result) (conflict_of result) (narrowed_of result) }
{
    let mut narrowed: u32 = 0;
    for x in c..d {
        narrowed |= check_play(arrays, x, w)?;
    }
    Ok(narrowed)
}

// Whether look ahead is used after d plays and may find a loss: beside rule 1 it finds none.
fn ahead_used(set: RuleSet, n: usize, d: usize) -> bool
    ensures { result ≡ (not (uses set.bits 1) && (ltb d n && uses set.bits 3)) }
{
    if set.uses(1) {
        return false;
    }
    d < n && set.uses(3)
}

// Rule 2 where it is on.
fn checks_turn(arrays: &Arrays, on: bool, c: usize, d: usize, w: &mut [u16]) -> Result<u32, Loss>
    requires { (c ≤ d) × (d ≤ arrays.now.n) × (96 ≤ length w.old) × Nonzero arrays.now.n w.old
        × Stated arrays.now.n arrays.now }
    ensures { ChecksTurn arrays.now.n arrays.now on c d
        w.old w.new (is_err result) (conflict_of result) (narrowed_of result) }
{
    if on {
        check_plays(arrays, c, d, w)
    } else {
        Ok(0)
    }
}

// The variables that rule 1 looks at: those whose domains are not what it left in the turn above. Where c is 0 there may
// be no such turn. Rule 2 leaves the play c without effect.
fn changed_by(arrays: &Arrays, c: usize, d: usize, on: bool, narrowed: u32) -> u32
    requires { (c ≤ d) × (d ≤ arrays.now.n) }
    ensures { Outside arrays.now.n c d on narrowed result }
{
    if c == 0 || c + 1 != d {
        return everyone(arrays.n);
    }
    if on {
        narrowed
    } else {
        narrowed | single::<u32>(c)
    }
}

// Rule 1 where it is on.
fn arc_turn(arrays: &Arrays, on: bool, changed: u32, w: &mut [u16]) -> Result<(), Loss>
    requires { (96 ≤ length w.old) × Nonzero arrays.now.n w.old
        × Stated arrays.now.n arrays.now
        × (on ≡ true → CalmBut arrays.now.n changed arrays.now w.old) }
    ensures { ArcTurn arrays.now.n arrays.now on w.old
        w.new (is_err result) (conflict_of result) }
{
    if on { arc(arrays, changed, w) } else { Ok(()) }
}

// Rule 2, or else rule 1, where it is on. `changed` is for rule 1.
fn rule_turn(
    rule: Rule,
    arrays: &Arrays,
    on: bool,
    changed: u32,
    c: usize,
    d: usize,
    w: &mut [u16],
) -> Result<u32, Loss>
    requires { (c ≤ d) × (d ≤ arrays.now.n) × (96 ≤ length w.old) × Nonzero arrays.now.n w.old
        × Stated arrays.now.n arrays.now
        × (rule ≡ Arc → on ≡ true → CalmBut arrays.now.n changed arrays.now w.old) }
    ensures { RuleTurn arrays.now.n arrays.now rule on c d
        w.old w.new (is_err result) (conflict_of result) (narrowed_of result) }
{
    match rule {
        Rule::Checks => checks_turn(arrays, on, c, d, w),
        Rule::Arc => {
            arc_turn(arrays, on, changed, w)?;
            Ok(0)
        }
    }
}

// Rule 3 at variable d where it is on.
fn ahead_turn(arrays: &Arrays, on: bool, d: usize, w: &[u16]) -> Result<(), Loss>
    requires { (on ≡ true → d < arrays.now.n) × (96 ≤ length w.now) × Nonzero arrays.now.n w.now
        × Stated arrays.now.n arrays.now }
    ensures { AheadTurn arrays.now.n arrays.now on d w.now
        (is_err result) (conflict_of result) }
{
    if on {
        if let Some(h) = look_ahead(arrays, d, w) {
            return Err(Loss {
                conflict: forward_conflict(arrays, w, d, h.variable),
            });
        }
    }
    Ok(())
}

// Rules 2, 1 and 3 of a turn.
pub fn run_rules(
    arrays: &Arrays,
    set: RuleSet,
    c: usize,
    d: usize,
    w: &mut [u16],
) -> Result<(), Loss>
    requires { (c ≤ d) × (d ≤ arrays.now.n) × (96 ≤ length w.old) × Nonzero arrays.now.n w.old
        × Stated arrays.now.n arrays.now
        × Settled arrays.now.n arrays.now set.bits c d w.old }
    ensures { RuledTurn arrays.now.n arrays.now set.bits c d
        w.old w.new (is_err result) (conflict_of result) }
{
    let checked = set.uses(2);
    let narrowed = rule_turn(Rule::Checks, arrays, checked, everyone(arrays.n), c, d, w)?;
    let changed = changed_by(arrays, c, d, checked, narrowed);
    let used = set.uses(1);
    rule_turn(Rule::Arc, arrays, used, changed, c, d, w)?;
    ahead_turn(arrays, ahead_used(set, arrays.n, d), d, w)
}

// Rules 2 and 3, forward check and look ahead, on the words of a turn. It rests on `solver_arrays`. Every public function here is for
// `rule_entries` and `search_rules`.
#![tactic(auto)]

ghost use Rattle.std.specs.Prelude.{◌≡◌, ◌≤◌, ◌<◌, length};
ghost use Rattle.solver_arrays.specs.Words.{Nonzero};
ghost use Rattle.rule_forward.specs.Replies.{Forwarded, UnmovedBut, ForwardConflict, LookedAhead};

use mask::single;
use solver_arrays::{Arrays, reason};
use steps::{check_each, later, losing_from, tried};

mod steps;

pub use steps::{Ahead, Checked};

// The forward check of value a of variable x. The reply names the variable of a loss, and the other variables that lost values.
pub fn forward(arrays: &Arrays, x: usize, a: usize, w: &mut [u16]) -> Checked
    requires { (x < arrays.now.n) × (a < 16) × (96 ≤ length w.old) × Nonzero arrays.now.n w.old }
    ensures { Forwarded arrays.now x a w.old w.new result.named
        × UnmovedBut x result.narrowed w.old w.new }
{
    let m = later(arrays, x);
    w[x] = single(a);
    let q = reason(w, x);
    check_each(arrays, x, a, q, m, w)
}

// The conflict set of a loss at variable x in the check of variable k.
pub fn forward_conflict(arrays: &Arrays, w: &[u16], k: usize, x: usize) -> u32
    requires { (96 ≤ length w.now) × (k < 32) × (x < 32) }
    ensures { ForwardConflict arrays.now k x w.now result }
{
    reason(w, k) | reason(w, x) | arrays.neighbours(x)
}

// Look ahead at variable i: the lowest value whose forward check is a loss, and the variable that this loss names.
pub fn look_ahead(arrays: &Arrays, i: usize, w: &[u16]) -> Option<Ahead>
    requires { (i < arrays.now.n) × (96 ≤ length w.now) × Nonzero arrays.now.n w.now }
    ensures { LookedAhead arrays.now i w.now result }
{
    let m = later(arrays, i);
    let d = tried(arrays.universal, i, w);
    losing_from(arrays, i, m, d, w)
}

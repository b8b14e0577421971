// Rules 4 and 5 on the words of a turn: the masks that they reply at a variable, and its domain narrowed by them; only neighbours are looked
// at. `names` has rule 4 with names, over all variables. It rests on `solver_arrays`. Every public function here is for `rule_entries` and
// `search_steps`.
#![tactic(auto)]

ghost use Rattle.std.specs.Prelude.{◌≡◌, cond, ◌<◌, ◌≤◌, ◌^◌, length};
ghost use Rattle.mask.specs.Mask.{bit, mask_of};
ghost use Rattle.game.specs.Pure.{lowest as smallest};
ghost use Rattle.rule_narrow.specs.Narrow.{same_row, interchange_in, some_interchange, is_representative, RepliesPure, RepliesInterchangeable, Purges, LeavesPure, LeavesInterchangeable, NarrowsNext};

mod names;

use mask::{contains, difference, lowest, members_of, single};
pub use names::{PureNames, pure_names};
use solver_arrays::Arrays;

// Rule 4, the pure values of x. The two loops are the two "for all" of source document 000, definition 2: the variables in order of play, and
// the values of each, ascending; all values of x are tested at once, as a mask, until none is left. The first loop leaves out x, which is no
// neighbour of its own, and each variable that no constraint joins to x: "a pair without a table is free", so every value of x goes with all
// of that variable's.
fn pure_values(arrays: &Arrays, x: usize, w: &[u16]) -> u16
    requires { (x < arrays.now.n) × (96 ≤ length w.now) }
    ensures { RepliesPure arrays.now x w.now result }
{
    let mut out = w[x];
    for j in members_of(arrays.neighbours(x)) {
        for b in members_of(w[j]) {
            out &= arrays.row(j, b, x);
            if out == 0 {
                return 0;
            }
        }
    }
    out
}

// The mask of the smallest value of m alone, or no value where it is empty.
fn smallest_of(m: u16) -> u16
    ensures { result ≡ mask_of 16 (smallest (bit m)) }
{
    if m == 0 {
        0
    } else {
        single(lowest(m) as usize)
    }
}

// The narrowing that rule 4 names: an existential variable keeps the smallest pure value, if there is one; a universal
// one keeps the values that are not pure, and the smallest where all are.
fn purged_values(pure: u16, domain: u16, universal: bool) -> u16
    ensures { Purges pure domain universal result }
{
    if universal {
        let others = difference(domain, pure);
        if others == 0 {
            smallest_of(domain)
        } else {
            others
        }
    } else if pure == 0 {
        domain
    } else {
        smallest_of(pure)
    }
}

// Whether values a and b of x go with the same values of j.
fn same_row(arrays: &Arrays, x: usize, a: usize, b: usize, j: usize, w: &[u16]) -> bool
    requires { (x < 32) × (a < 16) × (b < 16) × (j < 32) × (96 ≤ length w.now) }
    ensures { result ≡ same_row arrays.now x w.now a b j }
{
    let m = w[j];
    arrays.row(x, a, j) & m == arrays.row(x, b, j) & m
}

// Whether they do so for each neighbour j, and so are interchangeable.
fn interchange(arrays: &Arrays, x: usize, a: usize, b: usize, w: &[u16]) -> bool
    requires { (x < 32) × (a < 16) × (b < 16) × (96 ≤ length w.now) }
    ensures { result ≡ interchange_in arrays.now x w.now a b }
{
    members_of(arrays.neighbours(x)).all(|j| same_row(arrays, x, a, b, j, w))
}

// Whether some value of the mask m is interchangeable with a.
fn some_interchange(arrays: &Arrays, x: usize, a: usize, m: u16, w: &[u16]) -> bool
    requires { (x < 32) × (a < 16) × (96 ≤ length w.now) }
    ensures { result ≡ some_interchange arrays.now x w.now a m }
{
    members_of(m).any(|b| interchange(arrays, x, b, a, w))
}

// The mask of a alone where no smaller value of the domain is interchangeable with it, else no value.
fn representative(arrays: &Arrays, x: usize, a: usize, w: &[u16]) -> u16
    requires { (x < 32) × (a < 16) × (96 ≤ length w.now) }
    ensures { result ≡ cond (is_representative arrays.now x w.now a) (2 ^ a) 0 }
{
    let one: u16 = single(a);
    if some_interchange(arrays, x, a, w[x] & (one - 1), w) {
        0
    } else {
        one
    }
}

// Rule 5: the smallest of each group of interchangeable values of x.
pub fn interchangeable_values(arrays: &Arrays, x: usize, w: &[u16]) -> u16
    requires { (x < arrays.now.n) × (96 ≤ length w.now) }
    ensures { RepliesInterchangeable arrays.now x w.now result }
{
    members_of(w[x]).fold(0, |out, a| out | representative(arrays, x, a, w))
}

// The domain of x after rule 4, where it is used.
fn after_pure(arrays: &Arrays, used: bool, x: usize, w: &[u16]) -> u16
    requires { (x < arrays.now.n) × (96 ≤ length w.now) }
    ensures { LeavesPure arrays.now used x w.now result }
{
    if used {
        purged_values(
            pure_values(arrays, x, w),
            w[x],
            contains(arrays.universal, x),
        )
    } else {
        w[x]
    }
}

// The domain of x after rule 5, where it is used.
fn after_interchangeable(arrays: &Arrays, used: bool, x: usize, w: &[u16]) -> u16
    requires { (x < arrays.now.n) × (96 ≤ length w.now) }
    ensures { LeavesInterchangeable arrays.now used x w.now result }
{
    if used {
        interchangeable_values(arrays, x, w)
    } else {
        w[x]
    }
}

// The domain of i narrowed in its words by rules 4 and 5, where they are used. Rule 5 looks at what rule 4 left.
pub fn narrow_next(arrays: &Arrays, four: bool, five: bool, i: usize, w: &mut [u16])
    requires { (i < arrays.now.n) × (96 ≤ length w.old) }
    ensures { NarrowsNext arrays.now.n arrays.now four five i w.old w.new }
{
    w[i] = after_pure(arrays, four, i, w);
    w[i] = after_interchangeable(arrays, five, i, w);
}

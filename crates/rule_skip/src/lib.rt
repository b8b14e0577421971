// Rule 7 on the words of a turn: of some values of its variable i those that a leaf lets it skip, all at once. `later` is the mask of
// the universal variables above i. Only neighbours are looked at. It rests on `solver_arrays`. The public functions are for
// `search_steps`.
#![tactic(auto)]

ghost use Rattle.std.specs.Prelude.{◌≡◌, ◌<◌, ◌≤◌, length, get_or};
ghost use Rattle.std.specs.Int.Bits.{bit_and};
ghost use Rattle.mask.specs.Mask.{bit};
ghost use Rattle.game.specs.Search.{untried};
ghost use Rattle.rule_skip.specs.Skip.{box_in, box_goes, goes_above, tested_above, LeafKeeps, LeafHolds, boxes_fit, left_by, left_of, Skips};

use mask::{contains, difference, members_above, members_of, single, within};
use solver_arrays::Arrays;

// The values that j may have: none for i, its mask for a later universal variable, else the leaf's.
fn box_of(later: u32, i: usize, j: usize, w: &[u16]) -> u16
    requires { (j < 32) × (128 ≤ length w.now) }
    ensures { result ≡ box_in later i w.now j }
{
    if j == i {
        0
    } else if contains(later, j) {
        w[j]
    } else {
        single((w[96 + j] % 16) as usize)
    }
}

// Whether every value that k may have goes with each value of the mask m of j.
#[tactic(auto, unfolding(crate::specs::Skip::box_goes))]
fn box_goes(arrays: &Arrays, later: u32, i: usize, j: usize, m: u16, k: usize, w: &[u16]) -> bool
    requires { (j < 32) × (k < 32) × (128 ≤ length w.now) }
    ensures { result ≡ box_goes arrays.now later i w.now j m k }
{
    within(box_of(later, i, k, w), arrays.common(j, m, k))
}

// The neighbours above j whose values need a test. A leaf that is handed up breaks no constraint: pairs of two of its values
// need none.
#[tactic(auto, unfolding(crate::specs::Skip::tested_above))]
fn tested_above(arrays: &Arrays, later: u32, j: usize) -> u32
    requires { j < 32 }
    ensures { result ≡ tested_above arrays.now later j }
{
    let above = arrays.later_neighbours(j);
    if contains(later, j) {
        above
    } else {
        above & later
    }
}

// Whether the values of j and those of each neighbour above it go together.
fn goes_above(arrays: &Arrays, later: u32, i: usize, j: usize, w: &[u16]) -> bool
    requires { (j < 32) × (128 ≤ length w.now) × LeafKeeps arrays.now w.now j }
    ensures { result ≡ goes_above arrays.now later i w.now j }
{
    let m = box_of(later, i, j, w);
    members_of(tested_above(arrays, later, j)).all(|k| box_goes(arrays, later, i, j, m, k, w))
}

// Whether the values of every pair without i go together.
fn boxes_fit(arrays: &Arrays, later: u32, i: usize, w: &[u16]) -> bool
    requires { (128 ≤ length w.now) × LeafHolds arrays.now.n arrays.now w.now }
    ensures { result ≡ boxes_fit arrays.now arrays.now.n later i w.now }
{
    (0..arrays.n).all(|j| goes_above(arrays, later, i, j, w))
}

// The values of i that go with every value that j may have.
#[tactic(auto, unfolding(crate::specs::Skip::left_by))]
fn left_by(arrays: &Arrays, later: u32, i: usize, j: usize, w: &[u16]) -> u16
    requires { (i < 32) × (j < 32) × (128 ≤ length w.now) }
    ensures { result ≡ left_by arrays.now later i w.now j }
{
    arrays.common(j, box_of(later, i, j, w), i)
}

// The values of i in the mask m that do so for each neighbour.
fn values_left(arrays: &Arrays, later: u32, i: usize, m: u16, w: &[u16]) -> u16
    requires { (i < 32) × (128 ≤ length w.now) }
    ensures { result ≡ bit_and m (left_of arrays.now later i w.now (get_or arrays.now.near i 0)) }
{
    let mut out = m;
    for j in members_of(arrays.neighbours(i)) {
        if out == 0 {
            return 0;
        }
        out &= left_by(arrays, later, i, j, w);
    }
    out
}

// The values of i in the mask m that rule 7 skips after the leaf in the words, which breaks no constraint.
pub fn skippable_values(arrays: &Arrays, i: usize, m: u16, w: &[u16]) -> u16
    requires { (i < arrays.now.n) × (128 ≤ length w.now) × LeafHolds arrays.now.n arrays.now w.now }
    ensures { Skips arrays.now.n arrays.now i m w.now result }
{
    let later = members_above(arrays.universal, i);
    let out = values_left(arrays, later, i, m, w);
    if out != 0 && boxes_fit(arrays, later, i, w) {
        out
    } else {
        0
    }
}

// The values that are left to try of u after value a: the later ones that are not skipped.
pub fn untried_after(u: u16, a: usize, skipped: u16) -> u16
    requires { a < 16 }
    ensures { result ≡ untried (bit skipped) a u }
{
    difference(members_above(u, a), skipped)
}

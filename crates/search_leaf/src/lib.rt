// The end of a line of play, over the words of a turn in which every variable has one value: whether a constraint is broken, and the
// leaf that is handed up. Only neighbours are looked at. It rests on `solver_arrays`. The public functions are for `search_steps`.
#![tactic(auto)]

ghost use Rattle.std.specs.Prelude.{◌≡◌, ◌<◌, ◌≤◌, length};
ghost use Rattle.mask.specs.Found.{found};
ghost use Rattle.search_leaf.specs.Leaf.{value_of, clashes, first_clash, Tells, with_leaf};

use mask::{lowest, members_of, single};
use solver_arrays::Arrays;

// The value of a mask of one value.
fn value_of(m: u16) -> u16
    ensures { (result ≡ value_of m) × (result < 16) }
{
    (lowest(m) % 16) as u16
}

// Whether the value of x clashes with that of y.
fn clash(arrays: &Arrays, x: usize, y: usize, w: &[u16]) -> bool
    requires { (x < 32) × (y < 32) × (96 ≤ length w.now) }
    ensures { result ≡ clashes arrays.now w.now x y }
{
    let a = value_of(w[x]) as usize;
    arrays.row(x, a, y) & w[y] == 0
}

// The first neighbour of x above it whose value clashes with that of x.
fn first_clash(arrays: &Arrays, x: usize, w: &[u16]) -> Option<usize>
    requires { (x < 32) × (96 ≤ length w.now) }
    ensures { result ≡ found 32 (first_clash arrays.now w.now x) }
{
    members_of(arrays.later_neighbours(x)).find(|y| clash(arrays, x, *y, w))
}

// The mask of the two variables of the first broken constraint, ascending by (x, y).
pub fn first_broken(arrays: &Arrays, w: &[u16]) -> Option<u32>
    requires { 96 ≤ length w.now }
    ensures { Tells arrays.now w.now result }
{
    for x in 0..arrays.n {
        if let Some(y) = first_clash(arrays, x, w) {
            return Some(single::<u32>(x) | single::<u32>(y));
        }
    }
    None
}

// The value of each variable, in the words of the leaf.
pub fn copy_leaf(arrays: &Arrays, w: &mut [u16])
    requires { 128 ≤ length w.old }
    ensures { w.new ≡ with_leaf arrays.now.n w.old }
{
    for j in 0..arrays.n {
        w[96 + j] = value_of(w[j]);
    }
}

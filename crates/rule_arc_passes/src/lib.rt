// Rule 1's removals on the words of a turn: dead values go, and the reasons of what loses values grow. Whole masks at a time; a variable
// looks again only at neighbours that lost values since it looked (proofs/Waiting.antt: the other looks change nothing). It rests on
// `solver_arrays`. `remove_dead` and `supported_of` are for `rule_arc`.
#![tactic(auto)]

ghost use Rattle.std.specs.Prelude.{◌≡◌, ◌&&◌, ltb, ◌<◌, ◌≤◌, length};
ghost use Rattle.mask.specs.Mask.{bit};
ghost use Rattle.std.specs.Int.Bits.{bit_and};
ghost use Rattle.solver_arrays.specs.Arrays.{supported_in};
ghost use Rattle.rule_arc_passes.specs.Passes.{leaves, cause_of, revise_in, look_from, lost_at, noted, pass_in, removed_in, Touched};

use mask::{contains, difference, lowest, members_of, rest_of, single};
use solver_arrays::{Arrays, add_reason, reason};

// Whether k is universal and later than x.
fn is_late(universal: u32, x: usize, k: usize) -> bool
    requires { k < 32 }
    ensures { result ≡ (bit universal k && ltb x k) }
{
    contains(universal, k) && x < k
}

// Of the values `wanted` of x those that go with some value of the mask m of k. It stops once none is missing.
pub fn supported_of(arrays: &Arrays, k: usize, m: u16, x: usize, wanted: u16) -> u16
    requires { (k < 32) × (x < 32) }
    ensures { result ≡ bit_and wanted (supported_in arrays.now k m x) }
{
    // A `while`, since a `for` with this exit makes a search 4 % slower.
    let mut out: u16 = 0;
    let mut left = m;
    while left != 0 {
        let a = lowest(left) as usize;
        out |= arrays.row(k, a, x);
        if wanted & out == wanted {
            return wanted;
        }
        left = rest_of(left);
    }
    wanted & out
}

// Of the values `old` of x those that the mask m of k leaves.
#[tactic(auto, unfolding(crate::specs::Passes::leaves))]
fn left_by(arrays: &Arrays, x: usize, k: usize, m: u16, old: u16) -> u16
    requires { (x < 32) × (k < 32) }
    ensures { result ≡ bit_and old (leaves arrays.now x k m) }
{
    if is_late(arrays.universal, x, k) {
        old & arrays.common(k, m, x)
    } else {
        supported_of(arrays, k, m, x, old)
    }
}

// What the reason of x takes in with a removal because of k, whose reason is r.
#[tactic(auto, unfolding(crate::specs::Passes::cause_of))]
fn cause(universal: u32, x: usize, k: usize, r: u32) -> u32
    requires { (x < 32) × (k < 32) }
    ensures { result ≡ cause_of universal x k r }
{
    if is_late(universal, x, k) {
        r | single::<u32>(x)
    } else {
        r
    }
}

// The revision of x by k.
fn revise(arrays: &Arrays, x: usize, k: usize, w: &mut [u16])
    requires { (x < 32) × (k < 32) × (96 ≤ length w.old) }
    ensures { w.new ≡ revise_in arrays.now x k w.old }
{
    let old = w[x];
    let new = left_by(arrays, x, k, w[k], old);
    if new != old {
        let c = cause(arrays.universal, x, k, reason(w, k));
        w[x] = new;
        add_reason(w, x, c);
    }
}

// One look of x at its neighbours in the mask waiting: its revisions by them. It says whether x has lost values.
fn look_from(arrays: &Arrays, waiting: u32, x: usize, w: &mut [u16]) -> bool
    requires { (x < 32) × (96 ≤ length w.old) }
    ensures { (w.new ≡ look_from arrays.now waiting x w.old) × (result ≡ lost_at x w.old w.new) }
{
    if contains(arrays.universal, x) {
        return false;
    }
    let old = w[x];
    for k in members_of(arrays.near[x] & waiting) {
        revise(arrays, x, k, w);
    }
    w[x] != old
}

// The mask dirty, with x in it where it lost values and else without it.
#[tactic(auto, unfolding(crate::specs::Passes::noted))]
fn note(dirty: u32, x: usize, lost: bool) -> u32
    requires { x < 32 }
    ensures { result ≡ noted dirty x lost }
{
    let b: u32 = single(x);
    if lost {
        dirty | b
    } else {
        difference(dirty, b)
    }
}

// A pass of looks. It replies the variables that lost values. At the look of x those below x in dirty lost values in this
// pass, the others in the pass before: these, and those of the mask all, are what x has still to look at.
fn pass(arrays: &Arrays, all: u32, start: u32, w: &mut [u16]) -> u32
    requires { 96 ≤ length w.old }
    ensures { record { dirty = result; words = w.new }
        ≡ pass_in arrays.now arrays.now.n all (record { dirty = start; words = w.old }) }
{
    let mut dirty = start;
    for x in 0..arrays.n {
        let lost = look_from(arrays, dirty | all, x, w);
        dirty = note(dirty, x, lost);
    }
    dirty
}

// Passes until no variable has lost values, in the first of which each looks at its neighbours in the mask `changed`: the
// others are known to have no effect. It replies these and the variables that have lost values. There are never more than
// 16 n passes: each but the last removes a value. A bit of n or above in dirty would stay, and no pass would be the last.
pub fn remove_dead(arrays: &Arrays, changed: u32, w: &mut [u16]) -> u32
    requires { 96 ≤ length w.old }
    ensures { (w.new ≡ removed_in arrays.now arrays.now.n changed w.old)
        × Touched changed result w.old w.new }
{
    let mut all = changed;
    let mut dirty = changed;
    let mut touched = changed;
    for _ in 0..16 * arrays.n {
        if dirty == 0 {
            return touched;
        }
        dirty = pass(arrays, all, dirty, w);
        all = 0;
        touched |= dirty;
    }
    touched
}

// The check of one value against later variables, one at a time.
ghost use Rattle.std.specs.Prelude.{◌≡◌, cond, ℕ, ◌^◌, ◌≤◌, ◌<◌, T, eqb, length, get_or};
ghost use Rattle.std.specs.Option.{option_or};
ghost use Rattle.std.specs.Int.Bits.{bit_or};
ghost use Rattle.mask.specs.Mask.{bit};
ghost use Rattle.mask.specs.Found.{found};
ghost use Rattle.solver_arrays.specs.Arrays.{row_in};
ghost use Rattle.rule_forward.specs.OneValue.{later_of, left_of, fails_at, checked_at, failing, checked_words, first_failing, Unmoved, first_losing, losing_at, ahead};

use mask::{contains, everyone, members_of, single};
use solver_arrays::{Arrays, add_reason};

// The neighbours of x after it and below n.
pub fn later(arrays: &Arrays, x: usize) -> u32
    requires { x < 32 }
    ensures { result ≡ later_of (get_or arrays.now.near x 0) x arrays.now.n }
{
    arrays.later_neighbours(x) & everyone(arrays.n)
}

// What the row r leaves of the mask m of a variable that is universal where u says so.
fn left_of(u: bool, r: u16, m: u16) -> u16
    ensures { result ≡ left_of u r m }
{
    if u { m } else { m & r }
}

// Whether the check fails there.
fn fails_at(u: bool, r: u16, m: u16) -> bool
    ensures { result ≡ fails_at u r m }
{
    let met = m & r;
    if u { met != m } else { met == 0 }
}

// The mask of variable j loses what does not go with the row r.
fn keep_at(u: bool, r: u16, q: u32, j: usize, w: &mut [u16])
    requires { (j < 32) × (96 ≤ length w.old) }
    ensures { w.new ≡ checked_at u r q w.old j }
{
    let m = w[j];
    let k = left_of(u, r, m);
    if k != m {
        w[j] = k;
        add_reason(w, j, q);
    }
}

// Whether the check of value a of x fails at variable j.
#[tactic(auto, unfolding(crate::specs::OneValue::failing))]
fn fails(arrays: &Arrays, x: usize, a: usize, j: usize, w: &[u16]) -> bool
    requires { (x < 32) × (a < 16) × (j < 32) × (96 ≤ length w.now) }
    ensures { result ≡ failing arrays.now x a w.now j }
{
    fails_at(contains(arrays.universal, j), arrays.row(x, a, j), w[j])
}

// The check of value a of x at variable j: whether it fails there.
#[tactic(auto, unfolding(crate::specs::OneValue::failing))]
fn check_at(arrays: &Arrays, x: usize, a: usize, q: u32, j: usize, w: &mut [u16]) -> bool
    requires { (x < 32) × (a < 16) × (j < 32) × (96 ≤ length w.old) }
    ensures { (result ≡ failing arrays.now x a w.old j)
        × (w.new ≡ checked_at (bit arrays.now.universal j) (row_in arrays.now x a j) q w.old j) }
{
    let u = contains(arrays.universal, j);
    let r = arrays.row(x, a, j);
    let lost = fails_at(u, r, w[j]);
    keep_at(u, r, q, j, w);
    lost
}

// The first that failed, j where none did before it.
fn first_lost(named: Option<usize>, lost: bool, j: usize) -> Option<usize>
    ensures { result ≡ cond lost (option_or named (Some j)) named }
{
    if lost { named.or(Some(j)) } else { named }
}

// The mask m, with j in it where its domain changed.
fn noted(m: u32, j: usize, old: u16, new: u16) -> u32
    requires { j < 32 }
    ensures { result ≡ cond (eqb new old) m (bit_or m (2 ^ j)) }
{
    if new == old { m } else { m | single::<u32>(j) }
}

// What a check finds: the lowest variable where it fails, or none; and the variables that lost values.
#[derive(Clone, Copy)]
pub struct Checked {
    pub named: Option<usize>,
    pub narrowed: u32,
}

// The check at each member of m.
pub fn check_each(arrays: &Arrays, x: usize, a: usize, q: u32, m: u32, w: &mut [u16]) -> Checked
    requires { (x < 32) × (a < 16) × (96 ≤ length w.old) × ((k : ℕ) → T (bit m k) → k < arrays.now.n) }
    ensures { (result.named ≡ found arrays.now.n (first_failing arrays.now x a arrays.now.n (bit m) w.old))
        × (w.new ≡ checked_words arrays.now x a arrays.now.n q (bit m) w.old)
        × Unmoved result.narrowed w.old w.new }
{
    let mut named = None;
    let mut narrowed: u32 = 0;
    for j in members_of(m) {
        let old = w[j];
        let lost = check_at(arrays, x, a, q, j, w);
        narrowed = noted(narrowed, j, old, w[j]);
        named = first_lost(named, lost, j);
    }
    Checked { named, narrowed }
}

// The lowest member of m where the check fails; nothing is written.
pub fn failing_from(arrays: &Arrays, x: usize, a: usize, m: u32, w: &[u16]) -> Option<usize>
    requires { (x < 32) × (a < 16) × (96 ≤ length w.now) × ((k : ℕ) → T (bit m k) → k < arrays.now.n) }
    ensures { result ≡ found arrays.now.n (first_failing arrays.now x a arrays.now.n (bit m) w.now) }
{
    members_of(m).find(|j| fails(arrays, x, a, *j, w))
}

// The domain of variable i where it is universal, else nothing.
pub fn tried(universal: u32, i: usize, w: &[u16]) -> u16
    requires { (i < 32) × (96 ≤ length w.now) }
    ensures { result ≡ cond (bit universal i) (get_or w.now i 0) 0 }
{
    if contains(universal, i) { w[i] } else { 0 }
}

// A value of a universal variable whose forward check is a loss, and the variable that this loss names.
#[derive(Clone, Copy, Default)]
pub struct Ahead {
    pub value: usize,
    pub variable: usize,
}

// The lowest value of the mask d whose check against the members of m is a loss, and the variable that this loss names.
pub fn losing_from(arrays: &Arrays, x: usize, m: u32, d: u16, w: &[u16]) -> Option<Ahead>
    requires { (x < 32) × (96 ≤ length w.now) × ((k : ℕ) → T (bit m k) → k < arrays.now.n) }
    ensures { result ≡ ahead (first_losing arrays.now x arrays.now.n m d w.now)
        (losing_at arrays.now x arrays.now.n m d w.now) }
{
    for value in members_of(d) {
        if let Some(variable) = failing_from(arrays, x, value, m, w) {
            return Some(Ahead { value, variable });
        }
    }
    None
}

// Sets of values as masks: bit k of a mask stands for value k. A domain is a mask of 16 bits, a set of variables one of 32. It rests
// on no other crate. Every function here is for the other crates of this repository.
#![tactic(auto)]

ghost use Rattle.std.specs.Prelude.{◌≡◌, ℕ, ◌<◌, ◌≤◌, ◌^◌, ltb};
ghost use Rattle.std.specs.Int.Bits.{bit_and};
ghost use Rattle.mask.specs.Range.{each, count, first};
ghost use Rattle.mask.specs.Mask.{bit, diff, rest, above};

mod upward;
mod widths;

pub use upward::{Ascending, members_of};
pub use widths::Mask;

// Whether the mask holds value k.
pub fn contains<M: Mask>(m: M, k: usize) -> bool
    requires { k < M.width }
    ensures { result ≡ bit (M.number m) k }
{
    m.holds(k)
}

// Whether it holds value k, whatever its size.
pub fn holds(m: u16, k: usize) -> bool
    ensures { result ≡ bit m k }
{
    k < 16 && contains(m, k)
}

// The mask of value k alone.
pub fn single<M: Mask>(k: usize) -> M
    requires { k < M.width }
    ensures { M.number result ≡ 2 ^ k }
{
    M::only(k)
}

// The mask of all numbers below n.
pub fn everyone(n: usize) -> u32
    requires { n ≤ 32 }
    ensures { (k : ℕ) → bit result k ≡ ltb k n }
{
    let one: u64 = 1;
    ((one << n) - 1) as u32
}

// The values that both masks hold.
pub fn meet(m: u16, w: u16) -> u16
    ensures { result ≡ bit_and m w }
{
    m & w
}

// The values of m that w lacks.
pub fn difference<M: Mask>(m: M, w: M) -> M
    ensures { M.number result ≡ diff (M.number m) (M.number w) }
{
    let a = m.wide();
    let b = w.wide();
    M::narrow(a ^ (a & b))
}

// Whether w holds every value of m.
pub fn within(m: u16, w: u16) -> bool
    ensures { result ≡ each 16 (bit m) (bit w) }
{
    m & w == m
}

// How many values the mask holds.
pub fn count_of(m: u16) -> u32
    ensures { result ≡ count 16 (bit m) }
{
    u16::count_ones(m)
}

// The smallest value of the mask, or its width where it is empty.
pub fn lowest<M: Mask>(m: M) -> u32
    ensures { result ≡ first M.width (bit (M.number m)) }
{
    m.zeros()
}

// The mask without its smallest value.
pub fn rest_of<M: Mask>(m: M) -> M
    requires { 1 ≤ M.number m }
    ensures { M.number result ≡ rest (M.number m) }
{
    let w = m.wide();
    M::narrow(w & (w - 1))
}

// The members of the mask above k.
pub fn members_above<M: Mask>(m: M, k: usize) -> M
    requires { k < M.width }
    ensures { M.number result ≡ above (M.number m) k }
{
    let w = m.wide();
    let one: u64 = 1 << k;
    M::narrow(w ^ (w & (one + (one - 1))))
}

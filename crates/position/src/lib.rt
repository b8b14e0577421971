// Positions by value: the number of plays, the lock depth and 32 places. It rests on `mask`, `refusal` and the laws of `theory`. `fresh` is
// open to callers; every other function is for the search and the session.
#![tactic(auto)]

ghost use Rattle.std.specs.Prelude.{◌≡◌, [], ◌≤◌, ◌<◌, T, length};
ghost use Rattle.position.specs.Position.{shown, pushed, popped, held, place_fits, fits_in, fit_test, place_mask, Written};

use mask::{holds, single};
use refusal::{Reason, needed};

// The options played, in order of play, and zero elsewhere. The first `depth` plays are held. C hosts hand it in and get it back.
#[repr(C)]
#[derive(Clone, Copy, PartialEq, Eq)]
pub struct Position {
    pub plays: usize,
    pub depth: usize,
    pub values: [u8; 32],
}

// Nothing played, nothing held.
pub fn fresh() -> Position
    ensures { result ≡ shown 0 [] }
{
    Position {
        plays: 0,
        depth: 0,
        values: [0; 32],
    }
}

// One play more.
pub fn pushed(p: Position, value: u8) -> Position
    requires { p.plays < 32 }
    ensures { result ≡ pushed p value }
{
    let mut next = p;
    next.values[p.plays] = value;
    next.plays += 1;
    next
}

// The last play taken back.
pub fn popped(p: Position) -> Position
    requires { (1 ≤ p.plays) × (p.plays ≤ 32) }
    ensures { result ≡ popped p }
{
    let mut before = p;
    before.plays -= 1;
    before.values[before.plays] = 0;
    before
}

// The first `depth` plays held, and no other.
pub fn held(p: Position, depth: usize) -> Position
    ensures { result ≡ held p depth }
{
    let mut next = p;
    next.depth = depth;
    next
}

fn place_fits(plays: usize, i: usize, m: u16, value: u8) -> bool
    ensures { result ≡ place_fits plays i m value }
{
    if i < plays {
        holds(m, value as usize)
    } else {
        value == 0
    }
}

// Not a misfit.
fn fits(p: Position, n: usize, domains: &[u16; 32]) -> bool
    ensures { result ≡ fits_in p n domains.now }
{
    let few = p.plays <= n;
    if !few {
        return false;
    }
    let within = p.depth <= p.plays;
    within && (0..32).all(|i| place_fits(p.plays, i, domains[i], p.values[i]))
}

// The refusal of a misfit.
pub fn fit_test(n: usize, domains: &[u16; 32], p: Position) -> Result<(), Reason>
    ensures { result ≡ fit_test n domains.now p }
{
    needed(fits(p, n, domains), Reason::Misfit)
}

fn place_mask(plays: usize, i: usize, m: u16, value: u8) -> u16
    requires { T (place_fits plays i m value) }
    ensures { result ≡ place_mask plays i m value }
{
    if i < plays { single(value as usize) } else { m }
}

// Writes the position's list into the first n words; the others stay.
pub fn narrowed_domains(p: Position, n: usize, domains: &[u16; 32], w: &mut [u16])
    requires { (n ≤ 32) × (n ≤ length w.old) × T (fits_in p n domains.now) }
    ensures { Written p n domains.now w.old w.new }
{
    for i in 0..n {
        w[i] = place_mask(p.plays, i, domains[i], p.values[i]);
    }
}

// The rows between a variable of a three-way constraint and its hidden variable, whose values are the places of its triples.
ghost use Rattle.std.specs.Prelude.{◌≡◌, ◌<◌};
ghost use Rattle.ternary_decoder.specs.Tables.{places_with, value_mask, places_of};

use file_constraints::FileTernary;
use mask::{everyone, single};

// The places whose value e is a.
pub fn places_with(c: &FileTernary, e: usize, a: usize) -> u16
    requires { (e < 3) × (a < 16) }
    ensures { result ≡ places_with c.now.file.now c.now.place e a }
{
    let mut out: u16 = 0;
    for q in 0..16 {
        if c.value(e, q) == a {
            out |= single::<u16>(q);
        }
    }
    out
}

// Value e of triple q alone; none behind the last triple.
pub fn value_mask(c: &FileTernary, e: usize, q: usize) -> u16
    requires { (e < 3) × (q < 16) }
    ensures { result ≡ value_mask c.now.file.now c.now.place e q }
{
    let a = c.value(e, q);
    if a < 16 { single(a) } else { 0 }
}

// The domain of the hidden variable.
pub fn places_of(c: &FileTernary) -> u16
    ensures { result ≡ places_of c.now.file.now c.now.place }
{
    let size = c.size();
    if size < 16 {
        everyone(size) as u16
    } else {
        u16::MAX
    }
}

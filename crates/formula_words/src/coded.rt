// The booleans that stand for the values of a variable.
ghost use Rattle.std.specs.Prelude.{◌≡◌, ◌*◌, ◌≤◌, ◌<◌};
ghost use Rattle.mask.specs.Range.{count};
ghost use Rattle.mask.specs.Mask.{bit};
ghost use Rattle.formula.specs.Encoding.{bits_for, width_for, ways_for};
ghost use Rattle.formula_words.specs.Coding.{base_in, coded_in};

use mask::{contains, count_of, meet, single};
use solver_arrays::Arrays;

// Of a variable: its side, how many booleans come before its own, how many values it has, how many booleans it becomes, how many ways
// stand for its values, its domain. Its numbers are small by their types.
#[derive(Clone, Copy)]
pub struct Coded {
    pub universal: bool,
    pub base: u16,
    pub size: u8,
    pub width: u8,
    pub ways: usize,
    pub domain: u16,
}

// How many bits d values need.
fn bits_for(d: usize) -> usize
    requires { d ≤ 16 }
    ensures { (result ≡ bits_for d) × (result ≤ 4) }
{
    if d <= 2 {
        1
    } else if d <= 4 {
        2
    } else if d <= 8 {
        3
    } else {
        4
    }
}

fn size_of(domain: u16) -> usize
    ensures { (result ≡ count 16 (bit domain)) × (result ≤ 16) }
{
    count_of(domain) as usize
}

#[tactic(auto, unfolding(formula::specs::Encoding::width_for))]
fn width_of(universal: bool, size: usize) -> usize
    requires { size ≤ 16 }
    ensures { (result ≡ width_for universal size) × (result ≤ 16) }
{
    if universal { bits_for(size) } else { size }
}

fn ways_of(universal: bool, size: usize) -> usize
    requires { size ≤ 16 }
    ensures { result ≡ ways_for universal size }
{
    if universal { 1 << bits_for(size) } else { size }
}

// How many booleans come before those of variable i.
pub fn base_of(arrays: &Arrays, i: usize) -> usize
    requires { i ≤ 32 }
    ensures { (result ≡ base_in arrays.now i) × (result ≤ 16 * i) }
{
    let mut base = 0;
    for k in 0..i {
        base += width_of(contains(arrays.universal, k), size_of(arrays.domains[k]));
    }
    base
}

pub fn coding_of(arrays: &Arrays, i: usize) -> Coded
    requires { i < 32 }
    ensures { result ≡ coded_in arrays.now i }
{
    let universal = contains(arrays.universal, i);
    let domain = arrays.domains[i];
    let size = size_of(domain);
    Coded {
        universal,
        base: base_of(arrays, i) as u16,
        size: size as u8,
        width: width_of(universal, size) as u8,
        ways: ways_of(universal, size),
        domain,
    }
}

// The place of value a in ascending order.
pub fn place_of(domain: u16, a: usize) -> usize
    requires { a < 16 }
    ensures { (result ≡ count a (bit domain)) × (result ≤ 16) }
{
    size_of(meet(domain, single::<u16>(a) - 1))
}

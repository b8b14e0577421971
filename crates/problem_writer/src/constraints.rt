// The constraints of a problem as the writer takes them: 18 numbers each, ascending by their pairs.
ghost use Rattle.std.specs.Prelude.{◌≡◌, ◌*◌, ◌<◌};
ghost use Rattle.buffer.specs.Stored.{stored};
ghost use Rattle.problem_writer.specs.Listing.{row_within, numbers_in, is_pair_in, Lists};

use crate::tied;
use mask::{contains, meet};
use solver_arrays::Arrays;

// 18 numbers for each of 496 constraints.
pub const NUMBERS: usize = 8928;

// Row a of i towards j, without values outside either domain.
fn row_within(arrays: &Arrays, i: usize, j: usize, a: usize) -> u16
    requires { (i < 32) × (j < 32) × (a < 16) }
    ensures { result ≡ row_within arrays.now i j a }
{
    if contains(arrays.domains[i], a) {
        meet(arrays.row(i, a, j), arrays.domains[j])
    } else {
        0
    }
}

// Whether the pair with this number, 32 i + j for (i, j), has a constraint.
fn is_pair(arrays: &Arrays, pair: usize) -> bool
    requires { pair < 1024 }
    ensures { result ≡ is_pair_in arrays.now pair }
{
    let i = pair / 32;
    let j = pair % 32;
    i < j && j < arrays.n && tied(arrays, i, j)
}

// The constraint of i and j, put in as constraint t.
fn put_constraint(numbers: &mut [u16; NUMBERS], t: usize, arrays: &Arrays, i: usize, j: usize)
    requires { (t < 496) × (i < 32) × (j < 32) }
    ensures { numbers.new ≡ stored numbers.old (18 * t) (numbers_in arrays.now i j) }
{
    numbers[18 * t] = i as u16;
    numbers[18 * t + 1] = j as u16;
    for a in 0..16 {
        numbers[18 * t + 2 + a] = row_within(arrays, i, j, a);
    }
}

// All constraints, at the front of numbers; replies how many there are.
pub fn list_constraints(arrays: &Arrays, numbers: &mut [u16; NUMBERS]) -> usize
    ensures { Lists arrays.now result numbers.old numbers.new }
{
    let mut count = 0;
    for pair in 0..32 * arrays.n {
        if is_pair(arrays, pair) {
            let i = pair / 32;
            let j = pair % 32;
            put_constraint(numbers, count, arrays, i, j);
            count += 1;
        }
    }
    count
}

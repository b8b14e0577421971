// The file of a problem, written from the solver's arrays by the writer. It rests on `file_writer`, `solver_arrays` and `problem_numbers`.
// `write_problem` is for `group_entries`, `tied` for `group_labels`.
#![tactic(auto)]

ghost use Rattle.std.specs.Prelude.{◌≡◌, ◌<◌, true};
ghost use Rattle.mask.specs.Mask.{bit, mask_of};
ghost use Rattle.solver_arrays.specs.Arrays.{Posed};
ghost use Rattle.file_writer.specs.Tests.{rules_fit};
ghost use Rattle.problem_writer.specs.Listing.{tied_in};
ghost use Rattle.problem_writer.specs.Written.{WritesProblem};

mod constraints;

use constraints::{NUMBERS, list_constraints};
use file_writer::write;
use mask::{contains, everyone};
use refusal::Reason;
use solver_arrays::Arrays;

// Whether a constraint joins i and j.
pub fn tied(arrays: &Arrays, i: usize, j: usize) -> bool
    requires { (i < 32) × (j < 32) }
    ensures { result ≡ tied_in arrays.now i j }
{
    contains(arrays.near[i], j) || contains(arrays.near[j], i)
}

// The universal variables as bits, none at n or above.
fn universal_bits(arrays: &Arrays) -> u64
    ensures { result ≡ mask_of arrays.now.n (bit arrays.now.universal) }
{
    (arrays.universal & everyone(arrays.n)) as u64
}

// Writes the file of the problem that the arrays state at the front of buf, with this rule set or none, and replies its length; 12.
pub fn write_problem(arrays: &Arrays, rules: Option<u8>, buf: &mut [u8]) -> Result<usize, Reason>
    requires posed { Posed arrays.now }
    requires set { rules_fit rules ≡ true }
    ensures { WritesProblem arrays.now rules buf.old buf.new result }
{
    let mut numbers = [0; NUMBERS];
    let count = list_constraints(arrays, &mut numbers);
    write(
        buf,
        arrays.n,
        count,
        rules,
        universal_bits(arrays),
        &arrays.domains[..arrays.n],
        &numbers[..18 * count],
        &[],
    )
}

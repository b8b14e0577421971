// A file with three-way constraints decoded into the solver's arrays, which state its ordinary problem: one existential variable more for each of
// them, behind all others, with a constraint to each of its three variables (document 02, card 7). It rests on `file_decoder`, `file_constraints`
// and `ternary_theory`. `decode_ordinary` is for the entries of the solver.
#![tactic(auto)]

ghost use Rattle.ternary_decoder.specs.Decoded.{DecodesOrdinary};

mod entries;
mod rows;

use entries::put_ternaries;
use file_constraints::constraints_at;
use file_decoder::{put_constraints, unconstrained};
use file_reader::read;
use refusal::Fault;
use solver_arrays::Arrays;

// The arrays get an accepted file's ordinary problem; the file's own variables are to play. A refused file leaves them.
pub fn decode_ordinary(f: &[u8], arrays: &mut Arrays) -> Result<(), Fault>
    ensures { DecodesOrdinary f.now arrays.old result arrays.new }
{
    let r = read(f)?;
    unconstrained(&r, arrays);
    let q = constraints_at(f);
    let m = r.head.m as usize;
    put_constraints(f, q, m, arrays);
    put_ternaries(f, q + 36 * m, m, r.head.t as usize, arrays);
    Ok(())
}

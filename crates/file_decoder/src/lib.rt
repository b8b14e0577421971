// An accepted file decoded once: the problem that it states, the arrays that the solver goes by instead of the file's bytes, and what
// an entry is given of both. It rests on `file_reader`, `file_constraints` and `solver_arrays`. Each constraint is entered at the place of
// its number, in both directions, so decoding is linear in the file. `decode` leaves constraints of three variables out: the open values
// keep to those of two. `ternary_decoder` goes on from its parts.
#![tactic(auto)]

ghost use Rattle.std.specs.Prelude.{◌<◌, ◌≤◌};
ghost use Rattle.file_decoder.specs.Decoded.{Decodes, Unconstrained};

mod entries;
mod rows;

pub use entries::{put_constraints, put_pair};
use file_constraints::constraints_at;
use file_reader::{Reading, read};
use refusal::Fault;
use solver_arrays::{Arrays, ROWS};

// The arrays get a reading's variables, and no constraint.
pub fn unconstrained(r: &Reading, arrays: &mut Arrays)
    requires { (0 < r.now.head.n) × (r.now.head.n ≤ 32) }
    ensures { Unconstrained r.now arrays.new }
{
    let n = r.head.n as usize;
    arrays.own = n;
    arrays.n = n;
    arrays.universal = r.head.universal;
    arrays.domains = r.domains;
    arrays.near = [0; 32];
    arrays.index = [0; 1024];
    arrays.rows = [65535; ROWS];
}

// The arrays get an accepted file with its constraints of two variables; all its variables are to play. They are lent, since by value they
// would be copied twice. A refused file leaves them.
pub fn decode(f: &[u8], arrays: &mut Arrays) -> Result<(), Fault>
    ensures { Decodes f.now arrays.old result arrays.new }
{
    let r = read(f)?;
    unconstrained(&r, arrays);
    put_constraints(f, constraints_at(f), r.head.m as usize, arrays);
    Ok(())
}

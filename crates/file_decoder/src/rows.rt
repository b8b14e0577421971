// The rows of a constraint, in both directions.
ghost use Rattle.std.specs.Prelude.{◌≡◌, ℕ, ◌+◌, ◌≤◌, ◌<◌};
ghost use Rattle.file_decoder.specs.Tables.{column_of, put_to, Gives};

use file_constraints::FileConstraint;
use mask::{contains, single};
use solver_arrays::ROWS;

// The values of i that go with value b of j.
pub fn column(c: &FileConstraint, b: usize) -> u16
    requires { b < 16 }
    ensures { result ≡ column_of c.now.file.now c.now.start c.now.number b }
{
    let mut out: u16 = 0;
    for a in 0..16 {
        if contains(c.row(a), b) {
            out |= single::<u16>(a);
        }
    }
    out
}

// A block of 16 rows, from base on.
pub fn put_block<R: Fn(usize) -> u16>(rows: &mut [u16; ROWS], base: usize, row: R)
    requires room { base + 16 ≤ 15888 }
    requires callable { (a : ℕ) → a < 16 → R.pre row a }
    ensures { (r : ℕ → ℕ) → Gives (R.post row) r → rows.new ≡ put_to rows.old base r 16 }
{
    for a in 0..16 {
        rows[base + a] = row(a);
    }
}

// Constraints entered one by one, of those from q on. Constraint t of the pair (i, j) has the blocks 2t + 1, from i towards j,
// and 2t + 2, from j towards i; block 0 serves every pair that no constraint joins.
ghost use Rattle.std.specs.Prelude.{◌≡◌, ℕ, ◌<◌};
ghost use Rattle.file_constraints.specs.Constraints.{constraint_one, constraint_two, Constraints};
ghost use Rattle.file_decoder.specs.Tables.{linked, numbered, blocks, Gives, near_with, index_with, rows_with, near_to, index_to, rows_to, SameVariables};

use crate::rows::{column, put_block};
use file_constraints::FileConstraint;
use mask::single;
use solver_arrays::Arrays;

// The pair (i, j) with constraint t: i and j become neighbours, and the pair has its two blocks.
pub fn put_pair<R: Fn(usize) -> u16, C: Fn(usize) -> u16>(
    arrays: &mut Arrays,
    i: usize,
    j: usize,
    t: usize,
    row: R,
    column: C,
)
    requires few { (t < 496) × (i < 32) × (j < 32) }
    requires rows { (a : ℕ) → a < 16 → R.pre row a }
    requires columns { (b : ℕ) → b < 16 → C.pre column b }
    ensures near_after { arrays.new.near ≡ linked arrays.old.near i j }
    ensures index_after { arrays.new.index ≡ numbered arrays.old.index i j t }
    ensures rows_after { (r c : ℕ → ℕ) → Gives (R.post row) r → Gives (C.post column) c
        → arrays.new.rows ≡ blocks arrays.old.rows t r c }
    ensures others { SameVariables arrays.old arrays.new }
{
    arrays.near[i] |= single::<u32>(j);
    arrays.near[j] |= single::<u32>(i);
    arrays.index[32 * i + j] = (2 * t + 1) as u16;
    arrays.index[32 * j + i] = (2 * t + 2) as u16;
    put_block(&mut arrays.rows, 32 * t + 16, row);
    put_block(&mut arrays.rows, 32 * t + 32, column);
}

// Constraint t of the file.
fn put_constraint(c: &FileConstraint, arrays: &mut Arrays)
    requires { (c.now.number < 496) × (constraint_one c.now.file.now c.now.start c.now.number < 32) × (constraint_two c.now.file.now c.now.start c.now.number < 32) }
    ensures near_after { arrays.new.near ≡ near_with arrays.old.near c.now.file.now c.now.start c.now.number }
    ensures index_after { arrays.new.index ≡ index_with arrays.old.index c.now.file.now c.now.start c.now.number }
    ensures rows_after { arrays.new.rows ≡ rows_with arrays.old.rows c.now.file.now c.now.start c.now.number }
    ensures others { SameVariables arrays.old arrays.new }
{
    let (i, j) = c.pair();
    put_pair(arrays, i, j, c.number, |a| c.row(a), |b| column(c, b));
}

// The first m constraints.
pub fn put_constraints(f: &[u8], q: usize, m: usize, arrays: &mut Arrays)
    requires { Constraints f.now q m }
    ensures near_after { arrays.new.near ≡ near_to arrays.old.near f.now q m }
    ensures index_after { arrays.new.index ≡ index_to arrays.old.index f.now q m }
    ensures rows_after { arrays.new.rows ≡ rows_to arrays.old.rows f.now q m }
    ensures others { SameVariables arrays.old arrays.new }
{
    for t in 0..m {
        let c = FileConstraint {
            file: f,
            start: q,
            number: t,
        };
        put_constraint(&c, arrays);
    }
}

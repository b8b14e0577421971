// Three-way constraints entered one by one. Constraint r of them, behind m constraints of two variables, has the hidden variable n + r, and its three
// constraints to that have the numbers m + 3r, m + 3r + 1, m + 3r + 2.
ghost use Rattle.std.specs.Prelude.{◌≡◌, ℕ, ◌+◌, ◌*◌, ◌≤◌, ◌<◌, false};
ghost use Rattle.mask.specs.Mask.{bit};
ghost use Rattle.refusal.specs.Chain.{Fine};
ghost use Rattle.file_reader.specs.Reading.{verdict_of};
ghost use Rattle.file_constraints.specs.Ternaries.{after_constraints, t_of, ternary_one, ternary_two, ternary_three, Ternaries};
ghost use Rattle.file_decoder.specs.Tables.{linked, numbered, blocks, SameVariables};
ghost use Rattle.ternary_decoder.specs.Tables.{places_with, value_mask, Adds};
ghost use Rattle.ternary_decoder.specs.Stated.{TernaryStated};
ghost use Rattle.file_decoder.specs.FileProblem.{ternary_of};

use crate::rows::{places_of, places_with, value_mask};
use file_constraints::FileTernary;
use file_decoder::put_pair;
use solver_arrays::Arrays;

// The constraint between x, which has value e of each triple, and the hidden variable h.
fn put_side(c: &FileTernary, e: usize, x: usize, h: usize, t: usize, arrays: &mut Arrays)
    requires { (e < 3) × (x < 32) × (h < 32) × (t < 496) }
    ensures near_after { arrays.new.near ≡ linked arrays.old.near x h }
    ensures index_after { arrays.new.index ≡ numbered arrays.old.index x h t }
    ensures rows_after { arrays.new.rows ≡ blocks arrays.old.rows t (places_with c.now.file.now c.now.place e) (value_mask c.now.file.now c.now.place e) }
    ensures others { SameVariables arrays.old arrays.new }
{
    put_pair(
        arrays,
        x,
        h,
        t,
        |a| places_with(c, e, a),
        |q| value_mask(c, e, q),
    );
}

// One three-way constraint, whose first number is t: the hidden variable is the next.
fn put_ternary(c: &FileTernary, t: usize, arrays: &mut Arrays)
    requires numbers { t + 2 < 496 }
    requires more { arrays.old.n < 32 }
    requires scope { (ternary_one c.now.file.now c.now.place < 32) × (ternary_two c.now.file.now c.now.place < 32) × (ternary_three c.now.file.now c.now.place < 32) }
    ensures { Adds c.now.file.now c.now.place t arrays.old arrays.new }
{
    let h = arrays.n;
    let (i, j, k) = c.scope();
    put_side(c, 0, i, h, t, arrays);
    put_side(c, 1, j, h, t + 1, arrays);
    put_side(c, 2, k, h, t + 2, arrays);
    arrays.domains[h] = places_of(c);
    arrays.n = h + 1;
}

// The count that stand from q on. None of the variables behind the present ones is universal.
pub fn put_ternaries(f: &[u8], q: usize, m: usize, count: usize, arrays: &mut Arrays)
    requires stand { Ternaries f.now q arrays.old.n count }
    requires numbers { m + 3 * count ≤ 496 }
    requires existential { (i : ℕ) → arrays.old.n ≤ i → bit arrays.old.universal i ≡ false }
    ensures { (fine : verdict_of f.now ≡ Fine) → q ≡ after_constraints f.now → count ≡ t_of f.now
        → TernaryStated (ternary_of f.now fine) m 0 arrays.old → TernaryStated (ternary_of f.now fine) m count arrays.new }
{
    let mut place = q;
    for r in 0..count {
        let c = FileTernary { file: f, place };
        put_ternary(&c, m + 3 * r, arrays);
        place = c.end();
    }
}

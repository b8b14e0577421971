// The look-up of every pair i < j < n of an accepted file, beside a walk over the records CT by their fixed places: the
// pair of the next record must be found there, any other pair must be free.
ghost use Rattle.std.specs.Prelude.{◌≤◌};

use file_lookup::{look_up, rows};
use trial_vectors::{Tally, byte, first_variable, part, place};

// Whether a record CT of the pair (i, j) stands at p.
fn stands(f: &[u8], p: usize, i: usize, j: usize) -> bool
    requires { p ≤ 1000000 }
{
    part(f, p, 2) == b"CT".as_slice() && byte(f, p + 2) == i && byte(f, p + 3) == j
}

// Whether the look-up finds the rows at this place, or none.
fn agrees(f: &[u8], i: usize, j: usize, rows_at: Option<usize>) -> bool {
    let found = look_up(f, i, j);
    found == Ok(rows_at) && rows_at.is_none_or(|w| rows(f, found) == part(f, w, 32))
}

pub fn all_pairs(f: &[u8], mut t: Tally) -> Tally {
    let n = byte(f, 2);
    let mut next = first_variable(f) + 4 * n;
    // A file that says more than 32 is refused, whatever its case says.
    let most = n.min(32);
    for i in 0..most {
        for j in i + 1..most {
            let p = place(next);
            let rows_at = stands(f, p, i, j).then_some(p + 4);
            t = t.counted(agrees(f, i, j, rows_at));
            if rows_at.is_some() {
                next = p + 36;
            }
        }
    }
    t
}

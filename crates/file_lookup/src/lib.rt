// The look-ups in a problem file: where the 16 rows of a pair's constraint stand, and the body of a three-way constraint by its place. It
// rests on `file_reader` and `file_layout`, and its laws on `buffer`. `look_up`, `rows`, `look_up_ternary` and `body_bytes` are open to
// callers. What is found is shown as a part of the caller's file, so nothing is copied.
#![tactic(auto)]

ghost use Rattle.std.specs.Prelude.{◌≡◌, ◌≤◌, ◌<◌};
ghost use Rattle.refusal.specs.Told.{replied, listed};
ghost use Rattle.file_layout.specs.Numbers.{pair_of};
ghost use Rattle.file_lookup.specs.Lookup.{told, place_to, look_up, rows_of};

mod part;
mod ternary;

use file_layout::{FileRecord, in_order, pair_of, word_at};
use file_reader::parts_of;
use part::part_at;
use refusal::{Reason, Refusal, needed};
pub use ternary::{Body, body_bytes, look_up_ternary};

// The look-up in a file that is known to be accepted, with m constraints from q: it does not read the file again.
fn find(f: &[u8], q: usize, m: usize, i: usize, j: usize) -> Option<usize>
    requires { (q ≤ 200) × (m ≤ 496) × (i < 32) × (j < 32) }
    ensures { replied (listed result) ≡ place_to f.now q (pair_of i j) m }
{
    let pair = pair_of(i, j);
    for k in (0..m).rev() {
        let p = q + 36 * k;
        let r = FileRecord { file: f, place: p };
        if r.pair() == pair {
            return Some(p + 4);
        }
    }
    None
}

// The place of the first row byte, or none where no constraint joins the pair. Reads the file first; refuses a pair that is not i < j < n.
pub fn look_up(f: &[u8], i: usize, j: usize) -> Result<Option<usize>, Refusal>
    ensures { told result ≡ look_up f.now i j }
{
    let parts = parts_of(f)?;
    let v = parts.variables;
    let m = word_at(f, 3) as usize;
    needed(in_order(i, j, v.n), Reason::Variable)?;
    Ok(find(f, v.end(), m, i, j))
}

// The 32 row bytes of what a look-up of this file found, as a part of it; the empty part for any other answer.
pub fn rows<'a>(f: &'a [u8], found: Result<Option<usize>, Refusal>) -> &'a [u8]
    ensures { result.now ≡ rows_of found f.now }
{
    match found {
        Ok(Some(p)) => part_at(f, p, 32),
        Ok(None) => &f[0..0],
        Err(_) => &f[0..0],
    }
}

// The look-up of a three-way constraint by its place in the file, from 0.
ghost use Rattle.std.specs.Prelude.{◌≡◌, ℕ, ◌≤◌};
ghost use Rattle.file_layout.specs.Layout.{ternary_at};
ghost use Rattle.file_lookup.specs.Ternary.{body_from, told_body, look_up_ternary, body_of};

use crate::part::part_at;
use file_layout::{FileRecord, word_at};
use file_reader::parts_of;
use refusal::Fault;

// Where its body begins, behind the mark, and how long it is.
#[derive(Clone, Copy)]
pub struct Body {
    pub place: usize,
    pub length: usize,
}

// That of the record of this number among those from q on.
fn body_from(f: &[u8], q: usize, number: usize) -> Body
    requires { (r : ℕ) → r ≤ number → ternary_at f.now q r ≤ 65535 }
    ensures { result ≡ body_from f.now q number }
{
    let mut place = q;
    for _ in 0..number {
        let r = FileRecord { file: f, place };
        place += 2 + r.body();
    }
    let r = FileRecord { file: f, place };
    Body {
        place: place + 2,
        length: r.body(),
    }
}

// The body of the record of this number, or none where there is no such record. Reads the file first.
pub fn look_up_ternary(f: &[u8], number: usize) -> Result<Option<Body>, Fault>
    ensures { told_body result ≡ look_up_ternary f.now number }
{
    let parts = parts_of(f)?;
    let v = parts.variables;
    if parts.ternaries.count <= number {
        return Ok(None);
    }
    let q = v.end() + 36 * word_at(f, 3) as usize;
    Ok(Some(body_from(f, q, number)))
}

// The bytes of the body that a look-up of this file found, as a part of it; the empty part for any other answer.
pub fn body_bytes<'a>(f: &'a [u8], found: Result<Option<Body>, Fault>) -> &'a [u8]
    ensures { result.now ≡ body_of found f.now }
{
    match found {
        Ok(Some(b)) => part_at(f, b.place, b.length),
        Ok(None) => &f[0..0],
        Err(_) => &f[0..0],
    }
}

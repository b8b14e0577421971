// The records VE, VA, CT and TT.
ghost use Rattle.std.specs.Prelude.{◌≡◌, ◌+◌, ◌*◌, ◌%◌, ◌≤◌, [], ◌∷◌, cond, length, None, Some};
ghost use Rattle.mask.specs.Mask.{bit};
ghost use Rattle.buffer.specs.Stored.{stored, joined};
ghost use Rattle.file_bytes.specs.Bytes.{variable_mark, variable_bytes, variables_bytes, rows_bytes, constraint_bytes, constraints_bytes};
ghost use Rattle.file_bytes.specs.Bytes.{domain_in, one_in, two_in, row_handed, from};
ghost use Rattle.file_bytes.specs.Bytes.{ternary_bytes, ternary_in, size_in, start_in, count_in, whole_records};

use crate::Numbers;
use crate::put::{put_two, put_word};
use mask::contains;

fn variable_mark(universal: bool) -> [u8; 2]
    ensures { result ≡ variable_mark universal }
{
    if universal { *b"VA" } else { *b"VE" }
}

fn put_variable(buf: &mut [u8], at: usize, universal: bool, domain: u16)
    requires { at + 4 ≤ length buf.old }
    ensures { buf.new ≡ stored buf.old at (variable_bytes universal domain) }
{
    put_two(buf, at, variable_mark(universal));
    put_word(buf, at + 2, domain);
}

impl Numbers {
    // The records of the variables.
    pub fn put_variables(self, buf: &mut [u8], at: usize, domains: &[u16])
        requires { (at + 4 * self.n ≤ length buf.old) × (self.n ≤ length domains.now) }
        ensures { buf.new ≡ stored buf.old at
            (variables_bytes (bit self.universal) (domain_in domains.now) self.n) }
    {
        for k in 0..self.n {
            put_variable(buf, at + 4 * k, contains(self.universal, k), domains[k]);
        }
    }
}

// The 16 rows that begin at base.
fn put_rows(buf: &mut [u8], at: usize, xs: &[u16], base: usize)
    requires { (at + 32 ≤ length buf.old) × (base + 16 ≤ length xs.now) }
    ensures { buf.new ≡ stored buf.old at (rows_bytes (from xs.now base) 16) }
{
    for a in 0..16 {
        put_word(buf, at + 2 * a, xs[base + a]);
    }
}

// Constraint t.
fn put_constraint(buf: &mut [u8], at: usize, xs: &[u16], t: usize)
    requires { (at + 36 ≤ length buf.old) × (18 * t + 18 ≤ length xs.now) }
    ensures { buf.new ≡ stored buf.old at
        (constraint_bytes (one_in xs.now t) (two_in xs.now t) (row_handed xs.now t)) }
{
    let i = (xs[18 * t] % 256) as u8;
    let j = (xs[18 * t + 1] % 256) as u8;
    put_two(buf, at, *b"CT");
    put_two(buf, at + 2, [i, j]);
    put_rows(buf, at + 4, xs, 18 * t + 2);
}

pub fn put_constraints(buf: &mut [u8], at: usize, m: usize, xs: &[u16])
    requires { (at + 36 * m ≤ length buf.old) × (18 * m ≤ length xs.now) }
    ensures { buf.new ≡ stored buf.old at
        (constraints_bytes (one_in xs.now) (two_in xs.now) (row_handed xs.now) m) }
{
    for k in 0..m {
        put_constraint(buf, at + 36 * k, xs, k);
    }
}

// So many numbers from base on, a byte each.
fn put_bytes(buf: &mut [u8], at: usize, xs: &[u16], base: usize, size: usize)
    requires { (at + size ≤ length buf.old) × (base + size ≤ length xs.now) }
    ensures { buf.new ≡ stored buf.old at (joined (λ k. from xs.now base k % 256 ∷ []) size) }
{
    for k in 0..size {
        buf[at + k] = (xs[base + k] % 256) as u8;
    }
}

// The three-way constraint whose numbers begin at base.
fn put_ternary(buf: &mut [u8], at: usize, xs: &[u16], base: usize, size: usize)
    requires { (at + 2 + size ≤ length buf.old) × (base + size ≤ length xs.now) }
    ensures { buf.new ≡ stored buf.old at (ternary_bytes (from xs.now base) size) }
{
    put_two(buf, at, *b"TT");
    put_bytes(buf, at + 2, xs, base, size);
}

// How many numbers the record has that begins at p.
pub fn size_in(xs: &[u16], p: usize) -> usize
    requires { p + 4 ≤ length xs.now }
    ensures { (result ≡ size_in xs.now p) × (result ≤ 196609) }
{
    4 + 3 * xs[p + 3] as usize
}

// The t records of the list, which holds them whole.
pub fn put_ternaries(buf: &mut [u8], at: usize, t: usize, xs: &[u16])
    requires { (t ≤ count_in xs.now) × (at + start_in xs.now t + 2 * t ≤ length buf.old) }
    ensures { buf.new ≡ stored buf.old at (joined (ternary_in xs.now) t) }
{
    let mut base = 0;
    let mut end = at;
    for _ in 0..t {
        let size = size_in(xs, base);
        put_ternary(buf, end, xs, base, size);
        base += size;
        end += 2 + size;
    }
}

// How many records the list holds, whole and one behind another; none where it stops within a record.
pub fn count_records(xs: &[u16]) -> Option<usize>
    ensures { result ≡ cond (whole_records xs.now) (Some (count_in xs.now)) None }
{
    let mut base = 0;
    let mut t = 0;
    while base < xs.len() {
        if xs.len() - base < 4 {
            return None;
        }
        let size = size_in(xs, base);
        if xs.len() - base < size {
            return None;
        }
        base += size;
        t += 1;
    }
    Some(t)
}

// What reading and look-up show of an accepted file, handed to the writer, gives the very bytes.
ghost use Rattle.std.specs.Prelude.{◌≤◌, ◌<◌};

use file_lookup::{look_up, rows};
use file_reader::{Reading, read};
use file_writer::write;
use trial_vectors::{Stored, byte, front, place, put};

// Puts the numbers that the look-up shows of the pair (i, j) at c, if any, and tells the place behind them.
fn put_shown(out: &mut [u16; 8928], c: usize, f: &[u8], i: usize, j: usize) -> usize
    requires { (i < 256) × (j < 256) }
{
    let p = place(c);
    let shown = rows(f, look_up(f, i, j));
    if shown.len() < 32 {
        return p;
    }
    put(out, p, &[i as u16, j as u16]);
    put(out, p + 2, front(&Stored::new(shown).words(16), 16));
    p + 18
}

fn put_all(out: &mut [u16; 8928], f: &[u8]) {
    let n = byte(f, 2).min(32);
    let mut c = 0;
    for i in 0..n {
        for j in i + 1..n {
            c = put_shown(out, c, f, i, j);
        }
    }
}

// Whether the writer, handed what reading shows and these numbers, writes f.
fn written_back(f: &[u8], r: Reading, numbers: &[u16; 8928]) -> bool {
    let mut buf = [0u8; 18000];
    let n = r.head.n as usize;
    let m = r.head.m as usize;
    let universal = r.head.universal as u64;
    let domains = r.domains;
    let d = front(&domains, n);
    let c = front(numbers, 18 * m);
    // The stored files have no three-way constraint.
    let written = write(&mut buf, n, m, r.head.rules, universal, d, c, &[]);
    written.is_ok_and(|k| front(&buf, k) == f)
}

pub fn comes_back(f: &[u8]) -> bool {
    let mut numbers = [0u16; 8928];
    put_all(&mut numbers, f);
    read(f).is_ok_and(|r| written_back(f, r, &numbers))
}

// The boundary rows of document 01 ("By program only"): small files made here, and what reading tells of each.
ghost use Rattle.std.specs.Prelude.{◌≤◌, ◌+◌};

use crate::reading::agrees;
use buffer::Text;
use trial_vectors::{Refused, Tally, front};

// The record RS, if there is one.
fn put_rules(t: &mut Text, rules: Option<u8>)
    ensures { t.new.at ≤ t.old.at + 3 }
{
    if let Some(k) = rules {
        t.put(&[b'R', b'S', k]);
    }
}

// n existential variables with one value.
fn put_variables(t: &mut Text, n: u8) {
    for _ in 0..n {
        t.put(b"VE\x01\x00");
    }
}

// One constraint of the pair (0, 1) with empty rows, where m is not 0.
fn put_constraint(t: &mut Text, m: u8)
    ensures { t.new.at ≤ t.old.at + 36 }
{
    if m != 0 {
        t.put(b"CT\x00\x01");
        t.put(&[0; 32]);
    }
}

// A file of n variables, m constraints and this rule set. Tells its length.
fn put_file(buf: &mut [u8; 256], n: u8, m: u8, rules: Option<u8>) -> usize {
    let mut t = Text::new(buf);
    t.put(&[b'Q', b'P', n, m, 0]);
    put_rules(&mut t, rules);
    put_variables(&mut t, n);
    put_constraint(&mut t, m);
    t.put(b"EN");
    t.at
}

// Whether reading this file tells this.
fn row(n: u8, m: u8, rules: Option<u8>, told: Result<(), Refused>) -> bool {
    let mut buf = [0u8; 256];
    let length = put_file(&mut buf, n, m, rules);
    agrees(front(&buf, length), told)
}

pub fn all_rows() -> Tally {
    Tally::default()
        .counted(agrees(&[], Err(Refused::file(1, 0))))
        .counted(row(32, 0, None, Ok(())))
        .counted(row(33, 0, None, Err(Refused::file(3, 0))))
        .counted(row(0, 0, None, Err(Refused::file(3, 0))))
        .counted(row(2, 1, None, Ok(())))
        .counted(row(2, 2, None, Err(Refused::file(3, 0))))
        .counted(row(2, 1, Some(127), Ok(())))
        .counted(row(2, 1, Some(128), Err(Refused::file(8, 5))))
}

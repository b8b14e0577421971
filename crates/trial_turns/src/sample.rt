// The five-variable problem that shows why arc enters a variable into its own reason when a value dies facing a later universal.
// Variable 2 is universal; the domains are {0, 1}, of variable 3 {0, 1, 2}; all pairs of values are compatible but
// (variable.value) 0.1-3.2, 1.0-2.0, 1.1-3.0, 2.1-3.2, 2.1-4.1, 3.1-4.0. The plays 0, 1, 1 lose and 0, 0, 1 win, so the conflict set
// of the loss must hold variable 1.
use crate::along::ruled_along;
use crate::searches::searched;
use buffer::Text;
use mask::contains;
use position::Position;
use trial_vectors::{Tally, front};

// A constraint of i and j, with the rows of the values 0, 1 and 2 of i.
fn put_constraint(t: &mut Text, row: [u8; 5]) {
    let [i, j, u, v, w] = row;
    t.put(&[b'C', b'T', i, j, u, 0, v, 0, w, 0]);
    t.put(&[0; 26]);
}

fn put_constraints(t: &mut Text) {
    let rows = [
        [0, 3, 7, 3, 0],
        [1, 2, 2, 3, 0],
        [1, 3, 7, 6, 0],
        [2, 3, 7, 3, 0],
        [2, 4, 3, 1, 0],
        [3, 4, 3, 2, 3],
    ];
    for row in rows {
        put_constraint(t, row);
    }
}

// Tells the file's length.
fn put_five(buf: &mut [u8; 256]) -> usize {
    let mut t = Text::new(buf);
    t.put(b"QP\x05\x06\x00");
    t.put(b"VE\x03\x00VE\x03\x00VA\x03\x00VE\x07\x00VE\x03\x00");
    put_constraints(&mut t);
    t.put(b"EN");
    t.at
}

// The position after the plays 0, a, 1.
fn after(a: u8) -> Position {
    let mut values = [0u8; 32];
    values[1] = a;
    values[2] = 1;
    Position {
        plays: 3,
        depth: 0,
        values,
    }
}

fn holds_one(conflict: u32) -> bool {
    contains(conflict, 1)
}

// Under this set 0, 1, 1 is lost with variable 1 in its conflict set, in a search from there and in one from the start, and 0, 0, 1
// is won.
fn blames_one(f: &[u8], set: usize) -> bool {
    let Ok(first) = searched(f, after(1), set) else {
        return false;
    };
    let Ok(second) = searched(f, after(0), set) else {
        return false;
    };
    let along = ruled_along(f, after(1), set);
    !first.outcome.is_won()
        && second.outcome.is_won()
        && holds_one(first.outcome.conflict())
        && along.is_some_and(holds_one)
}

pub fn all_sets() -> Tally {
    let mut buf = [0u8; 256];
    let length = put_five(&mut buf);
    let f = front(&buf, length);
    Tally::default()
        .counted(blames_one(f, 33))
        .counted(blames_one(f, 35))
        .counted(blames_one(f, 111))
        .counted(blames_one(f, 127))
}

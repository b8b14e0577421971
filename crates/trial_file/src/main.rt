// Runs reader, look-up and writer over stored files, and the reader over document 01's boundary rows. stdin is the first quarter of
// cases/reading.bin: the number of cases, then for each a file, the number of its refusal, 0 for an accepted file, and the place. It rests
// on `file_reader`, `file_lookup`, `file_writer`, `buffer` and `trial_vectors`.
#![tactic(auto)]

mod back;
mod boundary;
mod pairs;
mod reading;

use std::io;
use trial_vectors::{Refused, Stored, Tally, all_cases, input, report};

// A stored file, and the number and the place that reading it tells; the number is 0 for an accepted file.
#[derive(Clone, Copy)]
struct Case<'a> {
    file: &'a [u8],
    number: usize,
    place: usize,
}

fn next_case<'a>(s: &mut Stored<'a>) -> Case<'a> {
    Case {
        file: s.file(),
        number: s.byte(),
        place: s.word(),
    }
}

fn read(s: &mut Stored, t: Tally) -> Tally {
    let c = next_case(s);
    let told = if c.number == 0 && c.place == 0 {
        Ok(())
    } else {
        Err(Refused::file(c.number, c.place))
    };
    t.counted(reading::agrees(c.file, told))
}

// Every pair of an accepted file.
fn looked_up(s: &mut Stored, t: Tally) -> Tally {
    let c = next_case(s);
    if c.number == 0 {
        pairs::all_pairs(c.file, t)
    } else {
        t
    }
}

// An accepted file.
fn written(s: &mut Stored, t: Tally) -> Tally {
    let c = next_case(s);
    if c.number == 0 {
        t.counted(back::comes_back(c.file))
    } else {
        t
    }
}

fn main(rt: HostRuntime) -> io::Result<()> {
    let s = input(&rt);
    report(&rt, b"reading cases ", all_cases(&s, read))?;
    report(&rt, b"pairs looked up ", all_cases(&s, looked_up))?;
    report(&rt, b"files written back ", all_cases(&s, written))?;
    report(&rt, b"boundary rows ", boundary::all_rows())
}

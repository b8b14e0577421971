// Compares decoded arrays: those of a file with three-way constraints, and those of the file of its ordinary problem, decoded as any file of
// constraints of two variables. stdin is cases/card07-ordinary.bin (cases/README.md). It rests on `ternary_decoder`, `file_decoder` and
// `trial_vectors`.
#![tactic(auto)]

mod same;

use file_decoder::decode;
use same::state_alike;
use solver_arrays::Arrays;
use std::io;
use ternary_decoder::decode_ordinary;
use trial_vectors::{Stored, Tally, all_cases, byte, input, report};

// Whether the first file's arrays are the second's, and its own variables are to play.
fn decodes_alike(f: &[u8], ordinary: &[u8]) -> bool {
    let mut a = Arrays::empty();
    let mut b = Arrays::empty();
    decode_ordinary(f, &mut a).is_ok()
        && decode(ordinary, &mut b).is_ok()
        && a.own == byte(f, 2)
        && state_alike(&a, &b)
}

fn compared(s: &mut Stored, t: Tally) -> Tally {
    let f = s.file();
    let ordinary = s.file();
    t.counted(decodes_alike(f, ordinary))
}

fn main(rt: HostRuntime) -> io::Result<()> {
    let s = input(&rt);
    report(&rt, b"ordinary problems ", all_cases(&s, compared))
}

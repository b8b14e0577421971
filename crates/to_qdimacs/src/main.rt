// A problem file on standard input, the text of its formula (QDIMACS) on standard output, by `formula_entries`; a refused file gives the
// judging program's one line. No more than `INPUT` bytes are read: the first so many of any input are refused as all of it is (`reply_tail`,
// file_reader/proofs/Longest.antt).
#![tactic(auto)]

use formula_entries::write_formula;
use refusal::Refusal;
use standard_input::{INPUT, read_full, zeros};
use standard_output::{write_front, write_refusal};
use std::io;
use std::io::{Input, Print};

// The longest text there is, computed by bench/formula/longest.py.
const TEXT: usize = 4131214;

// The first k bytes of the text. `main` lends its long array whole, here and to `formula_of`: the check would compute a slice of it that is
// made where the array is (docs/PROVING.md).
fn write_text(rt: &impl Print, text: &[u8; TEXT], k: usize) -> io::Result<()> {
    write_front(rt, text, k)
}

// The text of the file's formula, put into the long array.
fn formula_of(f: &[u8], text: &mut [u8; TEXT]) -> Result<usize, Refusal> {
    write_formula(f, text)
}

fn main(rt: HostRuntime) -> io::Result<()> {
    let mut input: [u8; INPUT] = zeros();
    let n = read_full(&mut rt.reader(), &mut input)?;
    let mut text = [0u8; TEXT];
    match formula_of(&input[..n], &mut text) {
        Ok(k) => write_text(&rt, &text, k),
        Err(refusal) => write_refusal(&rt, refusal),
    }
}

// The judging program: a problem file on standard input, what document 01 shows for G1 on standard output, by `reporting`. No more than
// `INPUT` bytes are read: the first so many of any input have the text of all of it (`report_tail`, reporting/proofs/LongInput.antt).
#![tactic(auto)]

use reporting::report_file;
use standard_input::{INPUT, read_full, zeros};
use std::io;
use std::io::{Input, Write};

fn main(rt: HostRuntime) -> io::Result<()> {
    let mut input: [u8; INPUT] = zeros();
    let n = read_full(&mut rt.reader(), &mut input)?;
    let mut text = [0u8; 1024];
    let k = report_file(&input[..n], &mut text);
    io::writer(&rt).write_all(&text[..k])
}

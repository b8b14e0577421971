// A problem file on standard input, its groups of variables on standard output, by `group_entries`; a refused file gives the judging
// program's one line. No more than `INPUT` bytes are read: the first so many of any input are refused as all of it is (`reply_tail`,
// file_reader/proofs/Longest.antt).
#![tactic(auto)]

use file_reader::read;
use group_entries::groups;
use group_text::render_groups;
use refusal::Fault;
use standard_input::{INPUT, read_full, zeros};
use standard_output::{write_fault, write_front};
use std::io;
use std::io::Input;

// Holds the text of 32 groups, were each of all 32 variables.
const TEXT: usize = 4096;

// The text of the file's groups, at the front of the buffer.
fn text_of(f: &[u8], text: &mut [u8; TEXT]) -> Result<usize, Fault> {
    let reading = read(f)?;
    let list = groups(f)?;
    // The variables of its ordinary problem, which are at most 32.
    let n = (reading.head.n as usize + reading.head.t as usize).min(32);
    Ok(render_groups(n, &list, text))
}

fn main(rt: HostRuntime) -> io::Result<()> {
    let mut input: [u8; INPUT] = zeros();
    let n = read_full(&mut rt.reader(), &mut input)?;
    let mut text = [0u8; TEXT];
    match text_of(&input[..n], &mut text) {
        Ok(k) => write_front(&rt, &text, k),
        Err(fault) => write_fault(&rt, fault),
    }
}

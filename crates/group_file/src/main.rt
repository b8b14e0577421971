// A problem file on standard input and the number of a group as argument; that group's file on standard output, by `group_entries`, or one
// line: of a refusal, or how the program is called. No more than `INPUT` bytes are read: the first so many of any input are refused as all of
// it is (`reply_tail`, file_reader/proofs/Longest.antt).
#![tactic(auto)]

ghost use Rattle.std.specs.Prelude.{◌≡◌};
ghost use Rattle.group_file.specs.Decimal.{decimal_of};

use group_entries::write_group;
use standard_input::{INPUT, read_full, zeros};
use standard_output::{write_front, write_refusal};
use std::env::{Env, FillError};
use std::io;
use std::io::{Input, Write};

// Holds every file (`longest`, file_reader/proofs/Longest.antt).
const FILE: usize = 17994;

const USAGE: &[u8] = b"group_file N < JOB: the file of group N of the job, counted from 0\n";

// The number that the digits spell, or the largest where it is larger; none where there is no digit, or another byte.
fn decimal_of(text: &[u8]) -> Option<usize>
    ensures { result ≡ decimal_of text.now }
{
    let mut out: usize = 0;
    for byte in text.iter() {
        if !byte.is_ascii_digit() {
            return None;
        }
        out = out
            .saturating_mul(10)
            .saturating_add((*byte - b'0') as usize);
    }
    if text.is_empty() { None } else { Some(out) }
}

// The only argument, as a number; none where there is a second one, however long, or it has more than 256 bytes.
fn argument(env: &impl Env) -> Option<usize> {
    let mut buf = [0u8; 256];
    let Err(FillError::NotPresent) = env.arg(2, &mut buf) else {
        return None;
    };
    let k = env.arg(1, &mut buf).ok()?;
    decimal_of(buf.get(..k)?)
}

fn main(rt: HostRuntime) -> io::Result<()> {
    let Some(group) = argument(&rt) else {
        return io::writer(&rt).write_all(USAGE);
    };
    let mut input: [u8; INPUT] = zeros();
    let n = read_full(&mut rt.reader(), &mut input)?;
    let mut file: [u8; FILE] = zeros();
    match write_group(&input[..n], group, &mut file) {
        Ok(k) => write_front(&rt, &file, k),
        Err(refusal) => write_refusal(&rt, refusal),
    }
}

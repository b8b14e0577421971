// What the programs read their input with: a long array, and input read into it. It rests on std alone.
#![tactic(auto)]

ghost use Rattle.std.specs.Prelude.{◌≡◌, ◌≤◌, length, IfOk};

use std::io;
use std::io::Read;

// How many bytes are read for a problem file. The longest one has 17,994 (`longest`, file_reader/proofs/Longest.antt), but more decide with what
// number an input is refused (`long_tail`): behind the longest constraints a record TT may stand at 17,992, and only with its whole body, 4 bytes
// and 3 * 255, behind the 2 of its mark is it refused with 27 and not with 1.
pub const INPUT: usize = 18763;

// An array of N zeros, of which callers know the length alone: a proof that sees a long array's elements computes them one by one.
pub fn zeros<const N: usize>() -> [u8; N]
    ensures { N ≡ length result }
{
    [0; N]
}

// Reads until buf is full or the input ends, and tells how many bytes were read: they stand at the front of buf.
pub fn read_full<R: Read>(from: &mut R, buf: &mut [u8]) -> io::Result<usize>
    ensures { IfOk result (λ n. n ≤ length buf.new) }
{
    let mut done = 0;
    while done < buf.len() {
        let n = from.read(&mut buf[done..])?;
        if n == 0 {
            break;
        }
        done += n;
    }
    Ok(done)
}

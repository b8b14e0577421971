// What the trial programs share: standard input, numbers and parts of stored cases, answers as numbers, a tally of cases, and the lines
// of a report. Every read is total: a byte past the end is 0, a part that is not there is empty. It rests on `refusal` and
// `standard_input`. For the trial programs alone.
#![tactic(auto)]

ghost use Rattle.std.specs.Prelude.{◌≡◌, ◌≤◌, ◌<◌, length};

mod answers;
mod stored;

pub use answers::{Answer, Refused};
use standard_input::{read_full, zeros};
use std::io;
use std::io::{Input, Write};
pub use stored::Stored;

// How many cases were compared and differed, each counted up to a million.
#[derive(Clone, Copy, Default)]
pub struct Tally {
    pub compared: usize,
    pub differing: usize,
}

impl Tally {
    // One more case compared.
    pub fn counted(self, agrees: bool) -> Tally {
        Tally {
            compared: one_more(self.compared, true),
            differing: one_more(self.differing, !agrees),
        }
    }
}

fn one_more(count: usize, more: bool) -> usize {
    if more && count < 1000000 {
        count + 1
    } else {
        count
    }
}

// The tally of all stored cases: their number stands at the front, and `one` reads the next.
pub fn all_cases<F: Fn(&mut Stored, Tally) -> Tally>(s: &[u8], one: F) -> Tally
    requires { F.IsAlwaysCallable one }
{
    let mut cases = Stored::new(s);
    let mut t = Tally::default();
    for _ in 0..cases.word() {
        t = one(&mut cases, t);
    }
    t
}

// Standard input, and zeros behind it. A read that fails is the end of the input.
pub fn input(rt: &impl Input) -> [u8; 524288]
    ensures { 524288 ≡ length result }
{
    let mut s = zeros();
    let _ = read_full(&mut rt.reader(), &mut s);
    s
}

pub fn byte(s: &[u8], p: usize) -> usize
    ensures { result < 256 }
{
    s.get(p).map_or(0, |b| *b as usize)
}

// Two bytes, low byte first.
pub fn word(s: &[u8], p: usize) -> usize
    ensures { result < 65536 }
{
    if p < s.len() {
        byte(s, p) + 256 * byte(s, p + 1)
    } else {
        0
    }
}

// The k elements from p on.
pub fn part<'a, T>(s: &'a [T], p: usize, k: usize) -> &'a [T] {
    let rest = s.get(p..).unwrap_or(&[]);
    rest.get(..k).unwrap_or(&[])
}

// The first k elements of an array.
pub fn front<'a, T, const N: usize>(buf: &'a [T; N], k: usize) -> &'a [T] {
    part(buf, 0, k)
}

// Puts xs from p on, where they have room.
pub fn put<T: Copy, const N: usize>(buf: &mut [T; N], p: usize, xs: &[T]) {
    if p <= N && xs.len() <= N - p {
        let all = &mut buf[..];
        all[p..p + xs.len()].copy_from_slice(xs);
    }
}

// A place, cut to where no sum of a few small numbers wraps.
pub fn place(p: usize) -> usize
    ensures { result ≤ 1000000 }
{
    p.min(1000000)
}

// Where the variables of an accepted file begin: behind QP, and RS if there is one.
pub fn first_variable(f: &[u8]) -> usize
    ensures { result ≤ 8 }
{
    if part(f, 5, 2) == b"RS".as_slice() {
        8
    } else {
        5
    }
}

fn line(rt: &impl Print, label: &[u8], number: usize) -> io::Result<()> {
    io::writer(rt).write_all(label)?;
    println!(rt; "{number}")
}

pub fn report(rt: &impl Print, label: &[u8], t: Tally) -> io::Result<()> {
    line(rt, label, t.compared)?;
    line(rt, b"differing ", t.differing)
}

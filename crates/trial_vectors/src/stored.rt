// Stored bytes, read one behind another. Every read is total: a byte past the end is 0, a part that is not there is empty.
ghost use Rattle.std.specs.Prelude.{◌<◌};

use crate::{byte, part, word};

// The bytes that are still to be read.
#[derive(Clone, Copy)]
pub struct Stored<'a> {
    rest: &'a [u8],
}

impl<'a> Stored<'a> {
    pub fn new(bytes: &'a [u8]) -> Stored<'a> {
        Stored { rest: bytes }
    }

    // The next k bytes.
    pub fn part(&mut self, k: usize) -> &'a [u8] {
        let front = part(self.rest, 0, k);
        self.rest = self.rest.get(k..).unwrap_or(&[]);
        front
    }

    pub fn byte(&mut self) -> usize
        ensures { result < 256 }
    {
        byte(self.part(1), 0)
    }

    // The last byte of all counts as a word with a zero behind it.
    pub fn word(&mut self) -> usize
        ensures { result < 65536 }
    {
        let next = word(self.rest, 0);
        self.part(2);
        next
    }

    // A file: its length, and so many bytes.
    pub fn file(&mut self) -> &'a [u8] {
        let length = self.word();
        self.part(length)
    }

    // The next n bytes, the first 32 of them, and zeros behind.
    pub fn bytes(&mut self, n: usize) -> [u8; 32] {
        let stored = self.rest;
        self.part(n);
        let k = stored.len().min(n).min(32);
        let mut out = [0; 32];
        out[..k].copy_from_slice(&stored[..k]);
        out
    }

    // The next n words, likewise.
    pub fn words(&mut self, n: usize) -> [u16; 32]
        requires { n < 256 }
    {
        let stored = self.rest;
        self.part(2 * n);
        let mut out = [0; 32];
        for k in 0..n.min(32) {
            out[k] = word(stored, 2 * k) as u16;
        }
        out
    }
}

// The whole file of the numbers: its length, its head (QP and RS), its records.
ghost use Rattle.std.specs.Prelude.{◌≡◌, ◌+◌, ◌*◌, ◌≤◌, length};
ghost use Rattle.buffer.specs.Stored.{stored};
ghost use Rattle.file_bytes.specs.Bytes.{head_bytes, start_of, bytes_of, length_of, count_in, handed_with, Sized};

use crate::Numbers;
use crate::put::{put_two, put_word};
use crate::records::{put_constraints, put_ternaries};

impl Numbers {
    // Where the variables begin.
    fn start(self) -> usize
        ensures { (result ≡ start_of self.rules) × (result ≤ 8) }
    {
        match self.rules {
            None => 5,
            Some(_) => 8,
        }
    }

    // How long the file is, with a list of so many numbers of three-way constraints.
    pub fn length(self, ternaries: usize) -> usize
        requires { (ternaries ≤ 65535) × (self.t ≤ 65535) }
        ensures { result ≡ start_of self.rules + 4 * self.n + 36 * self.m + (ternaries + 2 * self.t) + 2 }
    {
        self.start() + 4 * self.n + 36 * self.m + (ternaries + 2 * self.t) + 2
    }

    // `QP`, and `RS` where there is a rule set.
    fn put_head(self, buf: &mut [u8])
        requires { start_of self.rules ≤ length buf.old }
        ensures { buf.new ≡ stored buf.old 0 (head_bytes self.n self.m self.rules) }
    {
        put_two(buf, 0, *b"QP");
        buf[2] = self.n as u8;
        put_word(buf, 3, self.m as u16);
        if let Some(k) = self.rules {
            put_two(buf, 5, *b"RS");
            buf[7] = k;
        }
    }

    // The whole file, at the front of the buffer.
    #[tactic(auto, unfolding(crate::specs::Bytes::length_of))]
    pub fn put(self, buf: &mut [u8], domains: &[u16], constraints: &[u16], ternaries: &[u16])
        requires sized { Sized (handed_with self domains.now constraints.now ternaries.now) }
        requires count { self.t ≡ count_in ternaries.now }
        requires room { length_of (handed_with self domains.now constraints.now ternaries.now) ≤ length buf.old }
        ensures { buf.new ≡ stored buf.old 0 (bytes_of (handed_with self domains.now constraints.now ternaries.now)) }
    {
        let s = self.start();
        let q = s + 4 * self.n;
        let behind = q + 36 * self.m;
        self.put_head(buf);
        self.put_variables(buf, s, domains);
        put_constraints(buf, q, self.m, constraints);
        put_ternaries(buf, behind, self.t, ternaries);
        put_two(buf, behind + (ternaries.len() + 2 * self.t), *b"EN");
    }
}

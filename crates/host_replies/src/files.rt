// Replies of reading, of the two look-ups, and of what writes bytes into a buffer.
ghost use Rattle.std.specs.Prelude.{◌≡◌, [], ◌∷◌};
ghost use Rattle.refusal.specs.Told.{refusal_told, told_by};
ghost use Rattle.file_reader.specs.Reading.{told as toldHeader, domains_shown};
ghost use Rattle.file_lookup.specs.Lookup.{told as toldFound};
ghost use Rattle.file_lookup.specs.Ternary.{told_body};
ghost use Rattle.host_replies.specs.Replies.{read_file_of, found_of, found_body_of, written_of};

use crate::calls::CallAnswer;
use file_lookup::Body;
use file_reader::{Reading, rules_used};
use refusal::{Fault, Refusal};

#[repr(C)]
#[derive(Clone, Copy)]
pub struct ReadFile {
    pub kind: u64,
    pub number: u64,
    pub place: u64,
    pub n: u64,
    pub m: u64,
    pub t: u64,
    pub universal: u64,
    pub given: u64,
    pub rules: u64,
    pub domains: [u16; 32],
}

// Whether a constraint joins two variables, and the place of its first row byte.
#[repr(C)]
#[derive(Clone, Copy)]
pub struct FoundRows {
    pub kind: u64,
    pub number: u64,
    pub place: u64,
    pub found: u64,
    pub rows: u64,
}

// Whether there is a three-way constraint of a number, the place of its body's first byte, and how many bytes the body has.
#[repr(C)]
#[derive(Clone, Copy)]
pub struct FoundBody {
    pub kind: u64,
    pub number: u64,
    pub place: u64,
    pub found: u64,
    pub body: u64,
    pub length: u64,
}

// How many bytes were written.
#[repr(C)]
#[derive(Clone, Copy)]
pub struct WrittenBytes {
    pub kind: u64,
    pub number: u64,
    pub place: u64,
    pub length: u64,
}

impl From<Result<Reading, Fault>> for ReadFile {
    ghost from_gives = { λ answer reply. reply ≡ read_file_of (toldHeader answer) (domains_shown answer) };

    fn from(answer: Result<Reading, Fault>) -> ReadFile {
        match answer {
            Ok(r) => {
                let head = r.head;
                let rules = head.rules;
                let domains = r.domains;
                ReadFile {
                    kind: 0,
                    number: 0,
                    place: 0,
                    n: head.n as u64,
                    m: head.m as u64,
                    t: head.t as u64,
                    universal: head.universal as u64,
                    given: rules.is_some() as u64,
                    rules: rules_used(rules) as u64,
                    domains,
                }
            }
            Err(fault) => ReadFile {
                kind: 2,
                number: u8::from(fault.reason) as u64,
                place: fault.place as u64,
                n: 0,
                m: 0,
                t: 0,
                universal: 0,
                given: 0,
                rules: 0,
                domains: [0; 32],
            },
        }
    }
}

impl From<Result<Option<usize>, Refusal>> for FoundRows {
    ghost from_gives = { λ answer reply. reply ≡ found_of (toldFound answer) };

    fn from(answer: Result<Option<usize>, Refusal>) -> FoundRows {
        let a = CallAnswer::from(answer);
        let rows = answer.unwrap_or(None);
        FoundRows {
            kind: a.kind,
            number: a.number,
            place: a.place,
            found: rows.is_some() as u64,
            rows: rows.unwrap_or(0) as u64,
        }
    }
}

impl From<Result<Option<Body>, Fault>> for FoundBody {
    ghost from_gives = { λ answer reply. reply ≡ found_body_of (told_body answer) };

    fn from(answer: Result<Option<Body>, Fault>) -> FoundBody {
        match answer {
            Ok(Some(b)) => FoundBody {
                kind: 0,
                number: 0,
                place: 0,
                found: 1,
                body: b.place as u64,
                length: b.length as u64,
            },
            Ok(None) => FoundBody {
                kind: 0,
                number: 0,
                place: 0,
                found: 0,
                body: 0,
                length: 0,
            },
            Err(fault) => FoundBody {
                kind: 2,
                number: u8::from(fault.reason) as u64,
                place: fault.place as u64,
                found: 0,
                body: 0,
                length: 0,
            },
        }
    }
}

impl From<Result<usize, Refusal>> for WrittenBytes {
    ghost from_gives = { λ answer reply. reply ≡ written_of (told_by (λ k. k ∷ []) refusal_told answer) };

    fn from(answer: Result<usize, Refusal>) -> WrittenBytes {
        let a = CallAnswer::from(answer);
        WrittenBytes {
            kind: a.kind,
            number: a.number,
            place: a.place,
            length: answer.unwrap_or(0) as u64,
        }
    }
}

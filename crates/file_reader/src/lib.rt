// The reader of problem files (document 01, "The job file"). It takes exactly the files of the layout and tells a refused one's number
// and place. It rests on `file_records` and `file_layout`. `read` is open to callers; `parts_of` is for `file_lookup`,
// `rules_used` for `host` and `reporting`.
#![tactic(auto)]

ghost use Rattle.std.specs.Prelude.{◌≡◌};
ghost use Rattle.file_reader.specs.Reading.{told, domains_shown, header_of, domains_of};

mod parts;
mod used;
mod values;
mod whole;

use file_layout::{rules_at, word_at};
pub use parts::Parts;
use refusal::Fault;
pub use used::rules_used;
use values::{domains, universal_bits};
pub use whole::parts_of;

// The numbers of an accepted file: variables, constraints of two and of three variables, the rule set or none, the universal variables as
// bits.
#[derive(Clone, Copy)]
pub struct Head {
    pub n: u8,
    pub m: u16,
    pub t: u8,
    pub rules: Option<u8>,
    pub universal: u32,
}

// What reading answers of an accepted file: its numbers and its domains.
#[derive(Clone, Copy)]
pub struct Reading {
    pub head: Head,
    pub domains: [u16; 32],
}

// Reads a file, whatever its bytes.
pub fn read(f: &[u8]) -> Result<Reading, Fault>
    ensures { (told result ≡ header_of f.now) × (domains_shown result ≡ domains_of f.now) }
{
    let parts = parts_of(f)?;
    let v = parts.variables;
    let head = Head {
        n: v.n as u8,
        m: word_at(f, 3),
        t: parts.ternaries.count as u8,
        rules: rules_at(f),
        universal: universal_bits(&v),
    };
    Ok(Reading {
        head,
        domains: domains(&v),
    })
}

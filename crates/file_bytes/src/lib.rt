// The numbers that the writer is handed, and their bytes, put into a buffer record by record (document 01, "The job file"). It rests on
// `file_layout` and on the definitions and laws of `buffer`. Every function here is for `file_writer`.
#![tactic(auto)]

ghost use Rattle.std.specs.Prelude.{◌≤◌};

mod put;
mod records;
mod whole;

pub use records::{count_records, size_in};

// The numbers that the writer is handed beside its lists: variables and constraints, the rule set or none, the universal variables as
// bits; and how many records the list of three-way constraints holds.
#[derive(Clone, Copy)]
pub struct Numbers {
    pub n: usize,
    pub m: usize,
    pub rules: Option<u8>,
    pub universal: u64,
    pub t: usize,
    ghost counts: { (n ≤ 32) × (m ≤ 496) },
}

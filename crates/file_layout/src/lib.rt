// The layout of problem files (document 01, "The job file"): bytes, marks, what stands where, and the tests on numbers that reader and
// writer share. It rests on `mask` and `refusal`. Every function here is for the other crates of the file.
#![tactic(auto)]

mod bytes;
mod file_record;
mod numbers;
mod places;
mod variables;

pub use bytes::{byte_at, word_at};
pub use file_record::FileRecord;
pub use numbers::{constraint_fits, counts_fit, in_order, pair_of, scope_of, ternary_fits};
pub use places::{rules_at, variables_at};
pub use variables::Variables;

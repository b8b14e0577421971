// The booleans that stand for the values of a variable, and literals over them, put into a buffer as far as it reaches. It rests on
// `formula`, `solver_arrays` and `buffer`. Everything here is for `formula_clauses` and `formula_text`.
#![tactic(auto)]

mod coded;
mod literals;

pub use coded::{Coded, base_of, coding_of, place_of};
pub use literals::{put_denial, put_end, put_words};

// A formula's text read once, by places: the side of each boolean of the prefix, where each clause begins, and the clauses of each last
// boolean as a chain. Total on any bytes; a byte past the end is 0. It rests on `formula`. Everything here is for `formula_judge`.
#![tactic(auto)]

mod chains;
mod line;
mod prefix;
mod reading;

pub use chains::read_clauses;
pub use line::{Line, Literal};
pub use prefix::read_prefix;
pub use reading::{Number, number_at};

// Booleans are numbered 1 to 512.
pub const PLACES: usize = 513;

// The most clauses that the formula of a problem has (`clauses_most`, formula_theory/proofs/CountLaws.antt).
pub const CLAUSES: usize = 127008;

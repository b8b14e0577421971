// The solver's arrays, the variables that they speak of, and the words of a turn: rows in either direction and whole masks of them,
// neighbours, reasons, the values that go with plays. What arrays state of a problem is in specs/Arrays.antt. It rests on `mask`, `game`
// and `theory`. Types and functions are for decoding, the rules, the search and the open values.
#![tactic(auto)]

mod arrays;
mod words;

pub use arrays::{Arrays, ROWS};
pub use words::{Loss, Words, add_reason, put_reason, reason, value_at};

// The records of a problem file, a test for each kind (document 01, "The job file"): fine, or document 01's number and place. It rests
// on `file_layout` and on `rule_set`, which says what numbers are rule sets. Every function here is for `file_reader`.
#![tactic(auto)]

mod constraints;
mod end;
mod head;
mod ternaries;
mod variables;

pub use constraints::constraints_test;
pub use end::en_test;
pub use head::{qp_test, rs_test};
pub use ternaries::{Ternaries, ternaries_test};
pub use variables::variables_test;

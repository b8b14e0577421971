// What the entries for a C host reply, and how each answer of the crates below becomes such a reply. `kind` is 0 for a finished reply,
// 1 for a refusal by number, 2 for a file's refusal with number and place; a field that says nothing is 0. It rests on the crates of
// these answers. Every conversion here is for `host`, whose replies the structs are.
#![tactic(auto)]

mod arcs;
mod calls;
mod checks;
mod files;
mod formula_judgements;
mod games;
mod groups;
mod looks;
mod names;
mod values;

pub use arcs::RuledList;
pub use calls::{CallAnswer, MovedPosition, OpenMasks, moved_shown};
pub use checks::CheckedList;
pub use files::{FoundBody, FoundRows, ReadFile, WrittenBytes};
pub use formula_judgements::FormulaJudgement;
pub use games::{Judgement, Marks, ReplayedCalls, SearchFindings};
pub use groups::GroupList;
pub use looks::LookedAhead;
pub use names::NamedValues;
pub use values::ValueMask;

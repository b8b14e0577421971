// The constraints of a file one by one, of two variables by their numbers and of three by their places: what the solver reads of an accepted file
// beside the reading's reply. It rests on `file_layout`, and its laws on what reader and look-up tell. Constraints of two are for `file_decoder` and
// `ternary_decoder`, those of three for the latter.
#![tactic(auto)]

ghost use Rattle.std.specs.Prelude.{◌≡◌};
ghost use Rattle.file_constraints.specs.Constraints.{constraints_at};

mod constraint;
mod ternary;

pub use constraint::FileConstraint;
use file_layout::{byte_at, variables_at};
pub use ternary::FileTernary;

// Where the constraints begin, asked once for a file.
#[tactic(auto, using(file_layout::proofs::LayoutLaws::start_most), unfolding(file_layout::specs::Layout::constraints_at))]
pub fn constraints_at(f: &[u8]) -> usize
    ensures { result ≡ constraints_at f.now }
{
    variables_at(f) + 4 * byte_at(f, 2)
}

// Why a call refuses: a chain of tests, of which the first that fails decides. A test answers `Result`: fine, or the reason; a test of a
// file tells the place too. It rests on no other crate. `Reason`, `Fault` and `Refusal` are what callers are told; the functions are for
// the other crates of this repository.
#![tactic(auto)]

mod reason;

ghost use Rattle.std.specs.Prelude.{◌≡◌};
ghost use Rattle.refusal.specs.Chain.{need};

pub use reason::{Fault, Reason, Refusal};

// Fine where b holds, else this.
pub fn needed<E: Copy>(b: bool, e: E) -> Result<(), E>
    ensures { result ≡ need b e }
{
    if b { Ok(()) } else { Err(e) }
}

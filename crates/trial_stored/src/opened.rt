// Open values beside those that stand in the stored cases.
ghost use Rattle.std.specs.Prelude.{◌<◌};

use position::Position;
use session::{Opened, open_values};
use trial_vectors::{Answer, Refused, Stored, byte};

// The n masks stored and the n counts behind them are those replied, and zeros follow.
fn shows(mut stored: Stored, n: usize, o: Opened) -> bool
    requires { n < 256 }
{
    let masks = o.masks;
    let counts = o.counts;
    stored.words(n) == masks && stored.bytes(n) == counts
}

// The open values of p answer a: a reply shows the masks and counts that are stored.
pub fn opens(stored: Stored, f: &[u8], p: Position, a: Answer) -> bool {
    let r = open_values(f, p);
    let answer = r.map(|_| (0, 0)).map_err(Refused::from);
    answer == a && r.ok().is_none_or(|o| shows(stored, byte(f, 2), o))
}

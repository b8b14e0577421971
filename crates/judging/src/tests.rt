// What is tested of a position and a room before a search, behind the rule set. For the entries that search.
ghost use Rattle.std.specs.Prelude.{◌≡◌};
ghost use Rattle.judging.specs.Tests.{room_test, place_test};

use position::{Position, fit_test};
use refusal::{Reason, needed};
use solver_arrays::Arrays;

// 12.
pub fn room_test(room: usize, words: usize) -> Result<(), Reason>
    ensures { result ≡ room_test room words }
{
    needed(room <= words, Reason::Room)
}

// 23 and 12, in this order.
pub fn place_test(arrays: &Arrays, p: Position, room: usize, words: usize) -> Result<(), Reason>
    ensures { result ≡ place_test arrays.now.own arrays.now.domains p room words }
{
    fit_test(arrays.own, &arrays.domains, p)?;
    room_test(room, words)
}

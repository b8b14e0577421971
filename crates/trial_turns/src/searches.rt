// A search from a position of a file, with all that it finds, in a room that is not zero.
use judging::search;
use position::Position;
use refusal::Refusal;
use search_run::{ROOM, Ran};

// The search under the set of this number.
pub fn searched(f: &[u8], p: Position, set: usize) -> Result<Ran, Refusal> {
    let mut room = [7u16; ROOM];
    search(f, p, set, &mut room)
}

// Positions in the stored cases.
use position::Position;
use trial_vectors::Stored;

// The number of plays, and as many values. None is held.
pub fn played(s: &mut Stored) -> Position {
    let plays = s.byte();
    let values = s.bytes(plays);
    Position {
        plays,
        depth: 0,
        values,
    }
}

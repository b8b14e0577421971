// What the trials of stored calls, games and turns share: stored positions, the kinds of call, judging and marking in a dirty room, and
// open values beside stored ones. It rests on `session`, `judging`, `marking` and `trial_vectors`. For the trial programs alone.
#![tactic(auto)]

mod opened;
mod positions;
mod rooms;

pub use opened::opens;
pub use positions::played;
pub use rooms::{judges, marks, needed};

// The kinds of call, as stored calls number them.
pub const PLAY: usize = 0;

pub const TAKE_BACK: usize = 1;

pub const MARK: usize = 2;

pub const OPEN: usize = 3;

pub const JUDGE: usize = 4;

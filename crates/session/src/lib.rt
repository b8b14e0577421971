// The session's core by value: a play, a take-back, a lock, an unlock and the open values of a position. Each call reads the file first,
// then tests the position, then its argument. It rests on `file_reader`, `file_decoder` and `position`. These five are open to callers;
// `left` is for the crates that keep a position between calls.
#![tactic(auto)]

ghost use Rattle.std.specs.Prelude.{◌≡◌};
ghost use Rattle.session.specs.Told.{told, left, play_told, play_left, take_back_told, take_back_left};
ghost use Rattle.session.specs.Told.{lock_told, lock_left, unlock_told, unlock_left};
ghost use Rattle.session.specs.Told.{told_opened, masks_in, counts_in, open_told, masks_shown, counts_shown};

mod open;
mod plays;

use file_decoder::decode;
use file_reader::read;
use open::open_in;
use plays::{lock_in, play_in, take_back_in, unlock_in};
use position::Position;
use refusal::Refusal;
use solver_arrays::Arrays;

// The open values of each variable, those still usable, as a mask, and how many they are. Zero at n and above.
#[derive(Clone, Copy)]
pub struct Opened {
    pub masks: [u16; 32],
    pub counts: [u8; 32],
}

// Plays this value of the next variable; replies the position that it leads to.
pub fn play(f: &[u8], p: Position, value: usize) -> Result<Position, Refusal>
    ensures answer_value { told result ≡ play_told f.now p value }
    ensures position_value { left p result ≡ play_left f.now p value }
{
    let r = read(f)?;
    Ok(play_in(r.head.n as usize, &r.domains, p, value)?)
}

// Takes the last play back; replies the position that it leads to.
pub fn take_back(f: &[u8], p: Position) -> Result<Position, Refusal>
    ensures answer_value { told result ≡ take_back_told f.now p }
    ensures position_value { left p result ≡ take_back_left f.now p }
{
    let r = read(f)?;
    Ok(take_back_in(r.head.n as usize, &r.domains, p)?)
}

// Holds all plays that stand; replies the position that it leads to.
pub fn lock(f: &[u8], p: Position) -> Result<Position, Refusal>
    ensures answer_value { told result ≡ lock_told f.now p }
    ensures position_value { left p result ≡ lock_left f.now p }
{
    let r = read(f)?;
    Ok(lock_in(r.head.n as usize, &r.domains, p)?)
}

// Holds the first `number` plays alone, at most as many as are held; replies the position that it leads to.
pub fn unlock(f: &[u8], p: Position, number: usize) -> Result<Position, Refusal>
    ensures answer_value { told result ≡ unlock_told f.now p number }
    ensures position_value { left p result ≡ unlock_left f.now p number }
{
    let r = read(f)?;
    Ok(unlock_in(r.head.n as usize, &r.domains, p, number)?)
}

// The position that one of these leaves: a refused call leaves the one that it was given.
pub fn left(p: Position, reply: Result<Position, Refusal>) -> Position
    ensures { result ≡ left p reply }
{
    reply.unwrap_or(p)
}

// The open values of every variable.
pub fn open_values(f: &[u8], p: Position) -> Result<Opened, Refusal>
    ensures result_value { told_opened result ≡ open_told f.now p }
    ensures masks_value { (masks_in result ≡ masks_shown f.now p) × (counts_in result ≡ counts_shown f.now p) }
{
    let mut arrays = Arrays::empty();
    decode(f, &mut arrays)?;
    Ok(open_in(&arrays, p)?)
}

// Judging and marking in a room that is dirty and longer than what is lent.
ghost use Rattle.std.specs.Prelude.{◌≤◌};

use judging::judge;
use marking::mark;
use position::Position;
use trial_vectors::{Answer, byte};

// How many words n variables need.
pub fn needed(n: usize) -> usize
    requires { n ≤ 256 }
    ensures { (128 ≤ result) × (result ≤ 32896) }
{
    128 * (n + 1)
}

// The first `used` words are zero, and the others those of a dirty room.
fn left(room: &[u16; 1280], used: usize) -> bool {
    (0..1280).all(|k| room[k] == if k < used { 0 } else { 7 })
}

// Lent k words of a dirty room, the call over this file answers a. Then the words that it needs are zero, or none where it refuses, and
// all others are as before.
fn answers<F: FnOnce(&mut [u16]) -> Answer>(call: F, f: &[u8], k: usize, a: Answer) -> bool
    requires { F.IsAlwaysCallable call }
{
    let used = if a.is_ok() { needed(byte(f, 2)) } else { 0 };
    let mut room = [7u16; 1280];
    let answer = call(&mut room[..k.min(1280)]);
    answer == a && left(&room, used)
}

fn judged(f: &[u8], p: Position, set: usize, room: &mut [u16]) -> Answer {
    Ok((judge(f, p, set, room)? as usize, 0))
}

// The winning values, and the domain.
fn marked(f: &[u8], p: Position, set: usize, room: &mut [u16]) -> Answer {
    let m = mark(f, p, set, room)?;
    Ok((m.winning as usize, m.domain as usize))
}

// Judging in k words answers a.
pub fn judges(f: &[u8], p: Position, set: usize, k: usize, a: Answer) -> bool {
    answers(|room| judged(f, p, set, room), f, k, a)
}

// Marking in k words answers a.
pub fn marks(f: &[u8], p: Position, set: usize, k: usize, a: Answer) -> bool {
    answers(|room| marked(f, p, set, room), f, k, a)
}

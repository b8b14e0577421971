// Call histories (document 00, demand 3): calls one after another from the fresh position, then the marks and the open values of the
// position reached. It rests on `session` and `marking`. `replay` is open to callers; it runs the very entries `play`, `take_back`,
// `lock`, `unlock`, `mark` and `open_values`.
#![tactic(auto)]

ghost use Rattle.std.specs.Prelude.{◌≡◌, length};
ghost use Rattle.refusal.specs.Chain.{Fine};
ghost use Rattle.file_records.specs.Records.{verdict_of};
ghost use Rattle.session.specs.Told.{told_opened, masks_in, counts_in, open_told, masks_shown, counts_shown};
ghost use Rattle.session.specs.History.{step, reached_from, reached_by};
ghost use Rattle.marking.specs.Marking.{told, mark_told, mark_left};
ghost use Rattle.history.specs.Replay.{as_call, calls_of, Demand3};

mod call;

use call::Call;
use marking::{Marks, mark};
use position::{Position, fresh};
use refusal::Refusal;
use session::{Opened, left, lock, open_values, play, take_back, unlock};

// What marking and the open values reply at the position reached.
#[derive(Clone, Copy)]
pub struct Replayed {
    pub marks: Result<Marks, Refusal>,
    pub opened: Result<Opened, Refusal>,
}

// The position that the call returned or left.
fn called(f: &[u8], p: Position, call: Call) -> Position
    ensures { result ≡ step f.now p (as_call call) }
{
    let reply = match call {
        Call::Play(value) => play(f, p, value),
        Call::TakeBack => take_back(f, p),
        Call::Lock => lock(f, p),
        Call::Unlock(number) => unlock(f, p, number),
    };
    left(p, reply)
}

// The position that the calls reach from another.
fn reached(f: &[u8], start: Position, calls: &[u8]) -> Position
    ensures { result ≡ reached_from f.now start (calls_of calls.now) }
{
    calls
        .iter()
        .fold(start, |p, call| called(f, p, Call::of(*call)))
}

// Runs the calls, each a byte (`Call::of`), and replies the marks and the open values reached, under the rule set of this number. The
// room is left as by marking.
pub fn replay(f: &[u8], calls: &[u8], set: usize, room: &mut [u16]) -> Replayed
    ensures marks_value { told result.marks ≡ mark_told f.now (reached_by f.now (calls_of calls.now)) set
        (length room.old) }
    ensures opened_value { told_opened result.opened ≡ open_told f.now (reached_by f.now (calls_of calls.now)) }
    ensures masks_value { (masks_in result.opened ≡ masks_shown f.now (reached_by f.now (calls_of calls.now)))
        × (counts_in result.opened ≡ counts_shown f.now (reached_by f.now (calls_of calls.now))) }
    ensures room_after { room.new ≡ mark_left f.now (reached_by f.now (calls_of calls.now)) set
        room.old }
    ensures demand3 { (fine : verdict_of f.now ≡ Fine)
        → Demand3 f.now fine (calls_of calls.now) set (length room.old)
        (reached_by f.now (calls_of calls.now)) (told result.marks) (told_opened result.opened) }
{
    let start = fresh();
    let p = reached(f, start, calls);
    let opened = open_values(f, p);
    let marks = mark(f, p, set, room);
    Replayed { marks, opened }
}

// Replies of a play, a take-back, a lock, an unlock and the open values.
ghost use Rattle.std.specs.Prelude.{◌≡◌, []};
ghost use Rattle.refusal.specs.Told.{refusal_told, told_by};
ghost use Rattle.session.specs.Told.{told, left, told_opened, masks_in, counts_in};
ghost use Rattle.host_replies.specs.Replies.{answer_of, moved_of, opened_of};

use position::Position;
use refusal::Refusal;
use session::{Opened, left};

#[repr(C)]
#[derive(Clone, Copy)]
pub struct CallAnswer {
    pub kind: u64,
    pub number: u64,
    pub place: u64,
}

// An answer, and the position that the call leads to.
#[repr(C)]
#[derive(Clone, Copy)]
pub struct MovedPosition {
    pub answer: CallAnswer,
    pub position: Position,
}

#[repr(C)]
#[derive(Clone, Copy)]
pub struct OpenMasks {
    pub kind: u64,
    pub number: u64,
    pub place: u64,
    pub masks: [u16; 32],
    pub counts: [u8; 32],
}

// Any call's answer, without the values of a finished one.
impl<T: Copy> From<Result<T, Refusal>> for CallAnswer {
    ghost from_gives = { λ answer reply. reply ≡ answer_of (told_by (λ x. []) refusal_told answer) };

    fn from(answer: Result<T, Refusal>) -> CallAnswer {
        match answer {
            Ok(_) => CallAnswer {
                kind: 0,
                number: 0,
                place: 0,
            },
            Err(Refusal::InCall(reason)) => CallAnswer {
                kind: 1,
                number: u8::from(reason) as u64,
                place: 0,
            },
            Err(Refusal::InFile(fault)) => CallAnswer {
                kind: 2,
                number: u8::from(fault.reason) as u64,
                place: fault.place as u64,
            },
        }
    }
}

// What a play, a take-back, a lock or an unlock at p replies.
pub fn moved_shown(p: Position, answer: Result<Position, Refusal>) -> MovedPosition
    ensures { result ≡ moved_of (told answer) (left p answer) }
{
    MovedPosition {
        answer: CallAnswer::from(answer),
        position: left(p, answer),
    }
}

impl From<Result<Opened, Refusal>> for OpenMasks {
    ghost from_gives = { λ answer reply. reply ≡ opened_of (told_opened answer) (masks_in answer) (counts_in answer) };

    fn from(answer: Result<Opened, Refusal>) -> OpenMasks {
        let a = CallAnswer::from(answer);
        let Opened { masks, counts } = answer.unwrap_or(Opened {
            masks: [0; 32],
            counts: [0; 32],
        });
        OpenMasks {
            kind: a.kind,
            number: a.number,
            place: a.place,
            masks,
            counts,
        }
    }
}

// Replies of rule 5 alone.
ghost use Rattle.std.specs.Prelude.{◌≡◌};
ghost use Rattle.rule_entries.specs.Alone.{told_values};
ghost use Rattle.host_replies.specs.Replies.{values_of};

use crate::calls::CallAnswer;
use refusal::Refusal;

#[repr(C)]
#[derive(Clone, Copy)]
pub struct ValueMask {
    pub kind: u64,
    pub number: u64,
    pub place: u64,
    pub values: u64,
}

impl From<Result<u16, Refusal>> for ValueMask {
    ghost from_gives = { λ answer reply. reply ≡ values_of (told_values answer) };

    fn from(answer: Result<u16, Refusal>) -> ValueMask {
        let a = CallAnswer::from(answer);
        ValueMask {
            kind: a.kind,
            number: a.number,
            place: a.place,
            values: answer.unwrap_or(0) as u64,
        }
    }
}

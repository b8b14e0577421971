// Replies of rule 1 alone.
ghost use Rattle.std.specs.Prelude.{◌≡◌};
ghost use Rattle.rule_entries.specs.Alone.{told as toldRuled};
ghost use Rattle.host_replies.specs.Replies.{ruled_of};

use crate::calls::CallAnswer;
use refusal::Refusal;

// Whether rule 1 found a loss.
#[repr(C)]
#[derive(Clone, Copy)]
pub struct RuledList {
    pub kind: u64,
    pub number: u64,
    pub place: u64,
    pub lost: u64,
}

impl From<Result<bool, Refusal>> for RuledList {
    ghost from_gives = { λ answer reply. reply ≡ ruled_of (toldRuled answer) };

    fn from(answer: Result<bool, Refusal>) -> RuledList {
        let a = CallAnswer::from(answer);
        RuledList {
            kind: a.kind,
            number: a.number,
            place: a.place,
            lost: answer.unwrap_or(false) as u64,
        }
    }
}

// Replies of rule 2 alone.
ghost use Rattle.std.specs.Prelude.{◌≡◌};
ghost use Rattle.rule_entries.specs.Alone.{told_check};
ghost use Rattle.host_replies.specs.Replies.{checked_of};

use crate::calls::CallAnswer;
use refusal::Refusal;

// Whether rule 2 found a loss, and the variable that it names.
#[repr(C)]
#[derive(Clone, Copy)]
pub struct CheckedList {
    pub kind: u64,
    pub number: u64,
    pub place: u64,
    pub lost: u64,
    pub variable: u64,
}

impl From<Result<Option<usize>, Refusal>> for CheckedList {
    ghost from_gives = { λ answer reply. reply ≡ checked_of (told_check answer) };

    fn from(answer: Result<Option<usize>, Refusal>) -> CheckedList {
        let a = CallAnswer::from(answer);
        let named = answer.unwrap_or(None);
        CheckedList {
            kind: a.kind,
            number: a.number,
            place: a.place,
            lost: named.is_some() as u64,
            variable: named.unwrap_or(0) as u64,
        }
    }
}

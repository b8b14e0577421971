// Replies of rule 3 alone.
ghost use Rattle.std.specs.Prelude.{◌≡◌};
ghost use Rattle.rule_entries.specs.Alone.{told_look};
ghost use Rattle.host_replies.specs.Replies.{looked_of};

use crate::calls::CallAnswer;
use refusal::Refusal;
use rule_entries::Ahead;

// Whether rule 3 found a loss, and the value and the variable that it names.
#[repr(C)]
#[derive(Clone, Copy)]
pub struct LookedAhead {
    pub kind: u64,
    pub number: u64,
    pub place: u64,
    pub lost: u64,
    pub value: u64,
    pub variable: u64,
}

impl From<Result<Option<Ahead>, Refusal>> for LookedAhead {
    ghost from_gives = { λ answer reply. reply ≡ looked_of (told_look answer) };

    fn from(answer: Result<Option<Ahead>, Refusal>) -> LookedAhead {
        let a = CallAnswer::from(answer);
        let named = answer.unwrap_or(None);
        let h = named.unwrap_or_default();
        LookedAhead {
            kind: a.kind,
            number: a.number,
            place: a.place,
            lost: named.is_some() as u64,
            value: h.value as u64,
            variable: h.variable as u64,
        }
    }
}

// Replies of rule 4 alone.
ghost use Rattle.std.specs.Prelude.{◌≡◌};
ghost use Rattle.rule_entries.specs.Alone.{told_pure, names_shown};
ghost use Rattle.host_replies.specs.Replies.{named_of};

use crate::calls::CallAnswer;
use refusal::Refusal;
use rule_entries::PureNames;

// The pure values and the others of the domain, and the variable and the value that each of these does not go with first.
#[repr(C)]
#[derive(Clone, Copy)]
pub struct NamedValues {
    pub kind: u64,
    pub number: u64,
    pub place: u64,
    pub pure: u64,
    pub impure: u64,
    pub variables: [u8; 16],
    pub values: [u8; 16],
}

impl From<Result<PureNames, Refusal>> for NamedValues {
    ghost from_gives = { λ answer reply. reply ≡ named_of (told_pure answer) (names_shown answer) };

    fn from(answer: Result<PureNames, Refusal>) -> NamedValues {
        let a = CallAnswer::from(answer);
        let PureNames {
            pure,
            impure,
            variables,
            values,
        } = answer.unwrap_or(PureNames {
            pure: 0,
            impure: 0,
            variables: [0; 16],
            values: [0; 16],
        });
        NamedValues {
            kind: a.kind,
            number: a.number,
            place: a.place,
            pure: pure as u64,
            impure: impure as u64,
            variables,
            values,
        }
    }
}

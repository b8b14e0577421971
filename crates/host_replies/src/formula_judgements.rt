// The reply of judging a formula's text.
ghost use Rattle.std.specs.Prelude.{◌≡◌};
ghost use Rattle.formula_entries.specs.Told.{told_judged};
ghost use Rattle.host_replies.specs.Replies.{formula_judgement_of};

use crate::calls::CallAnswer;
use formula_entries::JudgedFormula;
use refusal::Refusal;

// Whether the formula is won, and how many bytes its text has.
#[repr(C)]
#[derive(Clone, Copy)]
pub struct FormulaJudgement {
    pub kind: u64,
    pub number: u64,
    pub place: u64,
    pub won: u64,
    pub length: u64,
}

impl From<Result<JudgedFormula, Refusal>> for FormulaJudgement {
    ghost from_gives = { λ answer reply. reply ≡ formula_judgement_of (told_judged answer) };

    fn from(answer: Result<JudgedFormula, Refusal>) -> FormulaJudgement {
        let a = CallAnswer::from(answer);
        let j = answer.unwrap_or_default();
        FormulaJudgement {
            kind: a.kind,
            number: a.number,
            place: a.place,
            won: j.won as u64,
            length: j.length as u64,
        }
    }
}

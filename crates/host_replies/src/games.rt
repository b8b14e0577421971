// Replies of judging, marking, a search and a replay.
ghost use Rattle.std.specs.Prelude.{◌≡◌};
ghost use Rattle.judging.specs.Judging.{told as told_judged};
ghost use Rattle.judging.specs.Searching.{found};
ghost use Rattle.marking.specs.Marking.{told as toldMarked};
ghost use Rattle.session.specs.Told.{told_opened, masks_in, counts_in};
ghost use Rattle.host_replies.specs.Replies.{judgement_of, marks_of, opened_of, replayed_of, searched_of};

use crate::calls::{CallAnswer, OpenMasks};
use history::Replayed;
use refusal::Refusal;
use search_run::Ran;
use search_steps::Outcome;

#[repr(C)]
#[derive(Clone, Copy)]
pub struct Judgement {
    pub kind: u64,
    pub number: u64,
    pub place: u64,
    pub won: u64,
}

#[repr(C)]
#[derive(Clone, Copy)]
pub struct Marks {
    pub kind: u64,
    pub number: u64,
    pub place: u64,
    pub winning: u64,
    pub domain: u64,
}

// The replies of marking and of the open values.
#[repr(C)]
#[derive(Clone, Copy)]
pub struct ReplayedCalls {
    pub marks: Marks,
    pub opened: OpenMasks,
}

#[repr(C)]
#[derive(Clone, Copy)]
pub struct SearchFindings {
    pub kind: u64,
    pub number: u64,
    pub place: u64,
    pub won: u64,
    pub loss: u64,
    pub conflict: u64,
    pub list: [u16; 32],
    pub leaf: [u16; 32],
}

impl From<Result<bool, Refusal>> for Judgement {
    ghost from_gives = { λ answer reply. reply ≡ judgement_of (told_judged answer) };

    fn from(answer: Result<bool, Refusal>) -> Judgement {
        let a = CallAnswer::from(answer);
        Judgement {
            kind: a.kind,
            number: a.number,
            place: a.place,
            won: answer.unwrap_or(false) as u64,
        }
    }
}

impl From<Result<marking::Marks, Refusal>> for Marks {
    ghost from_gives = { λ answer reply. reply ≡ marks_of (toldMarked answer) };

    fn from(answer: Result<marking::Marks, Refusal>) -> Marks {
        let a = CallAnswer::from(answer);
        let m = answer.unwrap_or_default();
        Marks {
            kind: a.kind,
            number: a.number,
            place: a.place,
            winning: m.winning as u64,
            domain: m.domain as u64,
        }
    }
}

impl From<Result<Ran, Refusal>> for SearchFindings {
    ghost from_gives = { λ answer reply. reply ≡ searched_of (found answer) };

    fn from(answer: Result<Ran, Refusal>) -> SearchFindings {
        let a = CallAnswer::from(answer);
        let ran = answer.unwrap_or(Ran {
            outcome: Outcome::Lost {
                by_rules: false,
                conflict: 0,
            },
            list: [0; 32],
            leaf: [0; 32],
        });
        let list = ran.list;
        let leaf = ran.leaf;
        SearchFindings {
            kind: a.kind,
            number: a.number,
            place: a.place,
            won: ran.outcome.is_won() as u64,
            loss: ran.outcome.by_rules() as u64,
            conflict: ran.outcome.conflict() as u64,
            list,
            leaf,
        }
    }
}

impl From<Replayed> for ReplayedCalls {
    ghost from_gives = { λ replayed reply. reply ≡ replayed_of (marks_of (toldMarked replayed.marks))
        (opened_of (told_opened replayed.opened) (masks_in replayed.opened) (counts_in replayed.opened)) };

    fn from(replayed: Replayed) -> ReplayedCalls {
        ReplayedCalls {
            marks: Marks::from(replayed.marks),
            opened: OpenMasks::from(replayed.opened),
        }
    }
}

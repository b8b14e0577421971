// What a refused call tells.
ghost use Rattle.std.specs.Prelude.{◌≡◌};
ghost use Rattle.refusal.specs.Reason.{number_of, ◌at◌};
ghost use Rattle.refusal.specs.declared.reason.Refusal.TheVariants.{InFile, InCall};

// The reasons of documents 01 and 02 with their numbers: a caller's input 1 to 13, 26 and 27, the state from 20 to 25.
#[derive(Clone, Copy, PartialEq, Eq)]
pub enum Reason {
    Short = 1,
    Mark = 2,
    Count = 3,
    Domain = 4,
    Pair = 5,
    Order = 6,
    Stray = 7,
    Rules = 8,
    Tail = 9,
    Value = 10,
    Variable = 11,
    Room = 12,
    Lent = 13,
    Full = 20,
    Bare = 21,
    Done = 22,
    Misfit = 23,
    Locked = 24,
    Depth = 25,
    Triple = 26,
    Many = 27,
}

impl From<Reason> for u8 {
    ghost from_gives = { λ reason n. n ≡ number_of reason };

    fn from(reason: Reason) -> u8 {
        reason as u8
    }
}

// Why a file is refused, and where.
#[derive(Clone, Copy, PartialEq, Eq)]
pub struct Fault {
    pub reason: Reason,
    pub place: usize,
}

impl Reason {
    // At a place of the file.
    pub fn at(self, place: usize) -> Fault
        ensures { result ≡ self at place }
    {
        Fault {
            reason: self,
            place,
        }
    }
}

// What a call over a file refuses: the file, or by a reason of its own.
#[derive(Clone, Copy, PartialEq, Eq)]
pub enum Refusal {
    InFile(Fault),
    InCall(Reason),
}

impl From<Fault> for Refusal {
    ghost from_gives = { λ fault refusal. refusal ≡ InFile fault };

    fn from(fault: Fault) -> Refusal {
        Refusal::InFile(fault)
    }
}

impl From<Reason> for Refusal {
    ghost from_gives = { λ reason refusal. refusal ≡ InCall reason };

    fn from(reason: Reason) -> Refusal {
        Refusal::InCall(reason)
    }
}

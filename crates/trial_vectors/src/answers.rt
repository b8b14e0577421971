// What a call answers, as numbers.
use refusal::{Fault, Refusal};

// A reply of at most two numbers, or a refusal. The numbers are document 01's, as stored: comparing them tries those of `Reason` too.
pub type Answer = Result<(usize, usize), Refused>;

// A refusal's number, and its place where the file is refused.
#[derive(Clone, Copy, PartialEq, Eq)]
pub struct Refused {
    pub number: usize,
    pub place: Option<usize>,
}

impl Refused {
    // A call's, by number alone.
    pub fn call(number: usize) -> Refused {
        Refused {
            number,
            place: None,
        }
    }

    // A file's, with its place.
    pub fn file(number: usize, place: usize) -> Refused {
        Refused {
            number,
            place: Some(place),
        }
    }
}

impl From<Fault> for Refused {
    fn from(fault: Fault) -> Refused {
        Refused::file(u8::from(fault.reason) as usize, fault.place)
    }
}

impl From<Refusal> for Refused {
    fn from(refusal: Refusal) -> Refused {
        match refusal {
            Refusal::InFile(fault) => Refused::from(fault),
            Refusal::InCall(reason) => Refused::call(u8::from(reason) as usize),
        }
    }
}

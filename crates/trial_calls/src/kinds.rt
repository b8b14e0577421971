// The kinds of call.
use trial_stored::{JUDGE, MARK, OPEN, PLAY, TAKE_BACK};

#[derive(Clone, Copy, PartialEq, Eq)]
pub enum Kind {
    Play,
    TakeBack,
    Mark,
    Open,
    Judge,
}

impl Kind {
    // As stored calls number them.
    pub fn of(number: usize) -> Option<Kind> {
        match number {
            PLAY => Some(Kind::Play),
            TAKE_BACK => Some(Kind::TakeBack),
            MARK => Some(Kind::Mark),
            OPEN => Some(Kind::Open),
            JUDGE => Some(Kind::Judge),
            _ => None,
        }
    }
}

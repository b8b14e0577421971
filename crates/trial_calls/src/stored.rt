// The stored calls.
use crate::kinds::Kind;
use position::Position;
use trial_vectors::{Answer, Refused, Stored};

// A file, a position, the kind of call with its argument and the words lent, what it answers, and the answer's bytes.
#[derive(Clone, Copy)]
pub struct Call<'a> {
    pub file: &'a [u8],
    pub position: Position,
    pub kind: Option<Kind>,
    pub argument: usize,
    pub room: usize,
    pub answer: Answer,
    pub shown: Stored<'a>,
}

// A position with its lock depth and all its values.
pub fn position(s: &mut Stored) -> Position {
    let plays = s.byte();
    let depth = s.byte();
    let values = s.bytes(32);
    Position {
        plays,
        depth,
        values,
    }
}

// A stored refusal. 1 to 9 are the file's, with their place; but 8 is also the call's. A call's has the place 0, where no RS stands.
fn refused(number: usize, place: usize) -> Refused {
    if number == 8 && place == 0 || 9 < number {
        Refused::call(number)
    } else {
        Refused::file(number, place)
    }
}

// What a call of this kind replies.
fn reply(kind: Option<Kind>, mut shown: Stored) -> (usize, usize) {
    match kind {
        Some(Kind::Mark) => (shown.word(), shown.word()),
        Some(Kind::Judge) => (shown.byte(), 0),
        _ => (0, 0),
    }
}

impl<'a> Call<'a> {
    pub fn next(s: &mut Stored<'a>) -> Call<'a> {
        let file = s.file();
        let position = position(s);
        let kind = Kind::of(s.byte());
        let argument = s.byte();
        let room = s.word();
        let number = s.byte();
        let place = s.word();
        let length = s.byte();
        let shown = *s;
        s.part(length);
        let answer = if number == 0 {
            Ok(reply(kind, shown))
        } else {
            Err(refused(number, place))
        };
        Call {
            file,
            position,
            kind,
            argument,
            room,
            answer,
            shown,
        }
    }
}

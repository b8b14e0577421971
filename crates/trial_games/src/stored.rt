// The stored games.
use position::Position;
use trial_stored::played;
use trial_vectors::{Answer, Refused, Stored, byte, first_variable, word};

// A file, a position, what judging and marking answer, and the open values.
#[derive(Clone, Copy)]
pub struct Game<'a> {
    pub file: &'a [u8],
    pub position: Position,
    pub verdict: Answer,
    pub marks: Answer,
    pub open: Stored<'a>,
}

// What marking answers after d plays: the winning values and the domain, or 22 where all are played.
fn marks_of(f: &[u8], d: usize, winning: usize) -> Answer {
    if d < byte(f, 2) {
        Ok((winning, word(f, first_variable(f) + 4 * d + 2)))
    } else {
        Err(Refused::call(22))
    }
}

impl<'a> Game<'a> {
    pub fn next(s: &mut Stored<'a>) -> Game<'a> {
        let file = s.file();
        let position = played(s);
        let won = s.byte();
        let winning = s.word();
        let open = *s;
        s.part(3 * byte(file, 2));
        Game {
            file,
            position,
            verdict: Ok((won, 0)),
            marks: marks_of(file, position.plays, winning),
            open,
        }
    }
}

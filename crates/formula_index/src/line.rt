// The literals of a line, one by one.
ghost use Rattle.std.specs.Prelude.{◌≡◌, ◌+◌, ◌*◌, ◌≤◌, ◌^◌};
ghost use Rattle.std.specs.Iterator.{at_most};

use crate::reading::{byte_at, number_at};

// A boolean, or its negation.
#[derive(Clone, Copy)]
pub struct Literal {
    pub negative: bool,
    pub boolean: usize,
}

// What is left of a line: literals from a place on, up to a zero and no more than `left`. At its end the place is the one behind it.
#[derive(Drop)]
pub struct Line<'a> {
    text: &'a [u8],
    pub place: usize,
    left: usize,
    ghost near: { place + 11 * left ≤ 2 ^ 60 },
}

impl<'a> Line<'a> {
    // The line at a place, with no more than `most` literals.
    pub fn at(text: &'a [u8], place: usize, most: usize) -> Line<'a>
        requires { place + 11 * most ≤ 2 ^ 60 }
        ensures { (result.text.now ≡ text.now) × (result.left ≡ most) × (result.place ≡ place) }
    {
        Line {
            text,
            place,
            left: most,
        }
    }
}

impl<'a> Iterator for Line<'a> {
    type Item = Literal;

    ghost use Rattle.formula_index.specs.Reading.{Reads};

    ghost next_gives = { λ s r t. Reads s.text.now s.left s.place r t.text.now t.left t.place };

    ghost remaining = { λ s. at_most s.left };

    fn next(&mut self) -> Option<Literal> {
        if self.left == 0 {
            return None;
        }
        let negative = byte_at(self.text, self.place) == b'-';
        let from = if negative { self.place + 1 } else { self.place };
        let x = number_at(self.text, from);
        self.place = x.after;
        if x.value == 0 {
            self.left = 0;
            return None;
        }
        self.left -= 1;
        Some(Literal {
            negative,
            boolean: x.value,
        })
    }
}

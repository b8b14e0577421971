// A constraint of a file.
ghost use Rattle.std.specs.Prelude.{◌≡◌, ◌+◌, ◌*◌, ◌≤◌, ◌<◌, length};

use file_layout::{byte_at, word_at};

// The constraint of this number among those from start on: it is there, whole.
#[derive(Clone, Copy)]
pub struct FileConstraint<'a> {
    pub file: &'a [u8],
    pub start: usize,
    pub number: usize,
    pub ghost whole: { start + 36 * number + 36 ≤ length file.now },
}

impl<'a> FileConstraint<'a> {
    ghost use Rattle.file_constraints.specs.Constraints.{constraint_one, constraint_two, constraint_row};

    // Its two variables, the lower one first.
    pub fn pair(&self) -> (usize, usize)
        ensures { result ≡ (constraint_one self.now.file.now self.now.start self.now.number, constraint_two self.now.file.now self.now.start self.now.number) }
    {
        let f = self.file;
        let p = self.start + 36 * self.number;
        (byte_at(f, p + 2), byte_at(f, p + 3))
    }

    // Its row a.
    pub fn row(&self, a: usize) -> u16
        requires { a < 16 }
        ensures { result ≡ constraint_row self.now.file.now self.now.start self.now.number a }
    {
        let p = self.start + 36 * self.number;
        word_at(self.file, p + 4 + 2 * a)
    }
}

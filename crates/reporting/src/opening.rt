// The verdict before any play, and the marks of the first variable. An `Err` cannot come, and its value stands for nothing: the file is
// accepted and the room suffices.
ghost use Rattle.reporting.specs.Reporting.{JudgesFirst, MarksFirst};

use judging::judge;
use marking::{Marks, mark};
use position::fresh;
use search_run::ROOM;

// Whether the file's problem is won, under a rule set.
pub fn is_won(f: &[u8], set: usize) -> bool
    ensures { JudgesFirst f.now set result }
{
    let mut room = [0u16; ROOM];
    judge(f, fresh(), set, &mut room).unwrap_or(false)
}

// The marks of its first variable.
pub fn first_marks(f: &[u8], set: usize) -> Marks
    ensures { MarksFirst f.now set result }
{
    let mut room = [0u16; ROOM];
    mark(f, fresh(), set, &mut room).unwrap_or_default()
}

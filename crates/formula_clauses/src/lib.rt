// The clauses of a problem's formula, put into a buffer as far as it reaches, and counted. It works on the decoded arrays. It rests on
// `formula_words`, `solver_arrays` and `buffer`. `Clauses` is for `formula_text`.
#![tactic(auto)]

ghost use Rattle.std.specs.Prelude.{◌<◌, ◌^◌};

mod clash;
mod constraints;
mod existentials;

use buffer::Text;
use formula_words::put_end;

// A text, and how many clauses it has so far. They are counted up to the largest number.
#[derive(Drop)]
pub struct Clauses<'a, 'b> {
    pub text: &'b mut Text<'a>,
    pub count: usize,
    pub ghost within: { count < 2 ^ 64 },
}

impl<'a, 'b> Clauses<'a, 'b> {
    ghost use Rattle.formula_clauses.specs.Lines.{Ended};

    // The end of a clause.
    fn end(&mut self)
        ensures { Ended self.old self.new }
    {
        put_end(self.text);
        self.count = self.count.saturating_add(1);
    }
}

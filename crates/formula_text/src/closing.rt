// The closing clause.
ghost use Rattle.std.specs.Prelude.{[], ◌∷◌};
ghost use Rattle.formula.specs.Formula.{only_if};
ghost use Rattle.formula_words.specs.Words.{positives};
ghost use Rattle.formula_clauses.specs.Lines.{Lines};
ghost use Rattle.formula_text.specs.Body.{closes_in, all_in};

use crate::prefix::{all_booleans, closes};
use formula_clauses::Clauses;
use solver_arrays::Arrays;

pub fn put_closing(s: &mut Clauses, arrays: &Arrays)
    ensures { Lines s.old (only_if (closes_in arrays.now) (positives (all_in arrays.now) 1 ∷ [])) s.new }
{
    if closes(arrays) {
        s.put_some(all_booleans(arrays), 1);
    }
}

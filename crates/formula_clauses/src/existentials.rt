// The clauses that say of booleans that some of them holds.
ghost use Rattle.std.specs.Prelude.{[], ◌∷◌, ◌+◌, ◌^◌, ◌<◌};
ghost use Rattle.formula_words.specs.Words.{positives};
ghost use Rattle.formula_clauses.specs.Lines.{Lines};
ghost use Rattle.formula_clauses.specs.Clauses.{existential_of, existentials_of};

use crate::Clauses;
use formula_words::{coding_of, put_words};
use solver_arrays::Arrays;

impl<'a, 'b> Clauses<'a, 'b> {
    // Some of the k booleans behind `base`.
    pub fn put_some(&mut self, base: usize, k: usize)
        requires { base + k < 2 ^ 32 }
        ensures { Lines self.old (positives base k ∷ []) self.new }
    {
        put_words(self.text, base, k);
        self.end();
    }

    // At least one value of variable i, if it is existential.
    fn put_existential(&mut self, arrays: &Arrays, i: usize)
        requires { i < 32 }
        ensures { Lines self.old (existential_of arrays.now i) self.new }
    {
        let x = coding_of(arrays, i);
        if !x.universal {
            self.put_some(x.base as usize, x.size as usize);
        }
    }

    pub fn put_existentials(&mut self, arrays: &Arrays)
        ensures { Lines self.old (existentials_of arrays.now) self.new }
    {
        for i in 0..arrays.n {
            self.put_existential(arrays, i);
        }
    }
}

// The clauses of two variables, coded x and y.
ghost use Rattle.std.specs.Prelude.{[], ◌∷◌, ◌++◌, ◌≤◌};
ghost use Rattle.formula_words.specs.Words.{denial_of};
ghost use Rattle.formula_clauses.specs.Lines.{Lines};
ghost use Rattle.formula_clauses.specs.Clauses.{for_ways, clash_of, row_of};

use crate::Clauses;
use formula_words::{Coded, place_of, put_denial};
use mask::members_of;

impl<'a, 'b> Clauses<'a, 'b> {
    // Not way c of x, or not way d of y.
    fn put_clause(&mut self, x: Coded, c: usize, y: Coded, d: usize)
        requires { (c ≤ 1024) × (d ≤ 1024) }
        ensures { Lines self.old ((denial_of x c ++ denial_of y d) ∷ []) self.new }
    {
        put_denial(self.text, x, c);
        put_denial(self.text, y, d);
        self.end();
    }

    // With way c of x: the ways of y that stand for its value at place q. There are at most two.
    fn put_ways(&mut self, x: Coded, c: usize, y: Coded, q: usize)
        requires { (c ≤ 512) × (q ≤ 512) }
        ensures { Lines self.old (for_ways y q (λ d. (denial_of x c ++ denial_of y d) ∷ [])) self.new }
    {
        self.put_clause(x, c, y, q);
        let other = q + y.size as usize;
        if other < y.ways {
            self.put_clause(x, c, y, other);
        }
    }

    // The clash of the values at the places p of x and q of y.
    fn put_clash(&mut self, x: Coded, p: usize, y: Coded, q: usize)
        requires { (p ≤ 16) × (q ≤ 16) }
        ensures { Lines self.old (clash_of x p y q) self.new }
    {
        self.put_ways(x, p, y, q);
        let other = p + x.size as usize;
        if other < x.ways {
            self.put_ways(x, other, y, q);
        }
    }

    // The clashes of the value at place p of x with the bad values of y, ascending.
    pub(crate) fn put_row(&mut self, x: Coded, p: usize, y: Coded, bad: u16)
        requires { p ≤ 16 }
        ensures { Lines self.old (row_of x p y bad) self.new }
    {
        for b in members_of(bad) {
            self.put_clash(x, p, y, place_of(y.domain, b));
        }
    }
}

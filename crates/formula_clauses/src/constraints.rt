// The clauses of the constraints, ascending by their pairs.
ghost use Rattle.std.specs.Prelude.{◌≡◌, ◌&&◌, ◌<◌, ltb, get_or};
ghost use Rattle.mask.specs.Mask.{bit};
ghost use Rattle.formula_clauses.specs.Lines.{Lines};
ghost use Rattle.formula_clauses.specs.Clauses.{constraint_of, pair_of, later_of, constraints_of};

use crate::Clauses;
use formula_words::{Coded, coding_of, place_of};
use mask::{contains, difference, members_of};
use solver_arrays::Arrays;

// Whether i comes before j and a constraint joins them.
fn is_pair(arrays: &Arrays, i: usize, j: usize) -> bool
    requires { (i < 32) × (j < 32) }
    ensures { result ≡ (ltb i j && bit (get_or arrays.now.near i 0) j) }
{
    i < j && contains(arrays.near[i], j)
}

impl<'a, 'b> Clauses<'a, 'b> {
    // The clashes of the constraint of i, coded x, and j, coded y.
    fn put_constraint(&mut self, arrays: &Arrays, i: usize, x: Coded, j: usize, y: Coded)
        requires { (i < 32) × (j < 32) }
        ensures { Lines self.old (constraint_of arrays.now i x j y) self.new }
    {
        for a in members_of(x.domain) {
            let bad = difference(y.domain, arrays.row(i, a, j));
            self.put_row(x, place_of(x.domain, a), y, bad);
        }
    }

    // The clashes of i and j, if i comes before j and a constraint joins them.
    fn put_pair(&mut self, arrays: &Arrays, i: usize, j: usize)
        requires { (i < 32) × (j < 32) }
        ensures { Lines self.old (pair_of arrays.now i j) self.new }
    {
        if is_pair(arrays, i, j) {
            let x = coding_of(arrays, i);
            let y = coding_of(arrays, j);
            self.put_constraint(arrays, i, x, j, y);
        }
    }

    // The constraints of i with later variables.
    fn put_later(&mut self, arrays: &Arrays, i: usize)
        requires { i < 32 }
        ensures { Lines self.old (later_of arrays.now i) self.new }
    {
        for j in 0..arrays.n {
            self.put_pair(arrays, i, j);
        }
    }

    pub fn put_constraints(&mut self, arrays: &Arrays)
        ensures { Lines self.old (constraints_of arrays.now) self.new }
    {
        for i in 0..arrays.n {
            self.put_later(arrays, i);
        }
    }
}

// The members of a mask one by one, the lowest first.
ghost use Rattle.std.specs.Prelude.{◌≡◌};
ghost use Rattle.std.specs.Iterator.{at_most};
ghost use Rattle.mask.specs.Range.{count};
ghost use Rattle.mask.specs.Mask.{bit};
ghost use Rattle.mask.specs.Upward.{TakesLowest};

use crate::widths::Mask;
use crate::{lowest, rest_of};

// The members that are still to come.
#[derive(Drop)]
pub struct Ascending<M> {
    left: M,
}

impl<M: Mask> Iterator for Ascending<M> {
    type Item = usize;

    ghost next_gives = { λ s r t. TakesLowest M.width (M.number s.left) r (M.number t.left) };

    ghost remaining = { λ s. at_most (count M.width (bit (M.number s.left))) };

    fn next(&mut self) -> Option<usize> {
        let m = self.left;
        if m.wide() == 0 {
            return None;
        }
        self.left = rest_of(m);
        Some(lowest(m) as usize)
    }
}

// The members of a mask, for a `for` or a chain.
pub fn members_of<M: Mask>(m: M) -> Ascending<M>
    ensures { result.left ≡ m }
{
    Ascending { left: m }
}

// Rule 1 over the arrays of a problem and a lent list.
ghost use Rattle.rule_entries.specs.Inner.{ArcIn};

use mask::everyone;
use refusal::Reason;
use rule_arc::arc;
use rule_lend::{list_test, put_back, words_of};
use solver_arrays::Arrays;

// Whether rule 1 finds a loss.
pub fn arc_in(arrays: &Arrays, list: &mut [u16]) -> Result<bool, Reason>
    ensures { ArcIn arrays.now list.old list.new result }
{
    list_test(arrays, list)?;
    let mut w = words_of(list);
    let lost = arc(arrays, everyone(arrays.n), &mut w).is_err();
    put_back(&w, list);
    Ok(lost)
}

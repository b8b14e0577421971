// Rules 4 and 5 over the arrays of a problem and a lent list.
ghost use Rattle.rule_entries.specs.Inner.{PureIn, InterchangeableIn};

use refusal::Reason;
use rule_lend::{variable_test, words_of};
use rule_narrow::{PureNames, interchangeable_values, pure_names};
use solver_arrays::Arrays;

// Rule 4. Rule 5 has the same lines: one function over both would ask for what each rule requires, and be no plainer.
pub fn pure_in(arrays: &Arrays, list: &[u16], x: usize) -> Result<PureNames, Reason>
    ensures { PureIn arrays.now list.now x result }
{
    variable_test(arrays, list, x)?;
    let w = words_of(list);
    Ok(pure_names(arrays, x, &w))
}

// Rule 5.
pub fn interchangeable_in(arrays: &Arrays, list: &[u16], x: usize) -> Result<u16, Reason>
    ensures { InterchangeableIn arrays.now list.now x result }
{
    variable_test(arrays, list, x)?;
    let w = words_of(list);
    Ok(interchangeable_values(arrays, x, &w))
}

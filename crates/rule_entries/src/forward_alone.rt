// Rules 2 and 3 over the arrays of a problem and a lent list.
ghost use Rattle.rule_entries.specs.Inner.{ForwardIn, AheadIn};

use refusal::Reason;
use rule_forward::{Ahead, forward, look_ahead};
use rule_lend::{put_back, value_test, variable_test, words_of};
use solver_arrays::Arrays;

// The variable that the forward check names at a loss.
pub fn forward_in(
    arrays: &Arrays,
    list: &mut [u16],
    x: usize,
    a: usize,
) -> Result<Option<usize>, Reason>
    ensures { ForwardIn arrays.now list.old list.new x a result }
{
    value_test(arrays, list, x, a)?;
    let mut w = words_of(list);
    let named = forward(arrays, x, a, &mut w).named;
    put_back(&w, list);
    // Taken apart, so that an edit that names another variable is refused for the fact.
    match named {
        None => Ok(None),
        Some(j) => Ok(Some(j)),
    }
}

// The value that look ahead names at a loss, and the variable that its check names.
pub fn ahead_in(arrays: &Arrays, list: &[u16], x: usize) -> Result<Option<Ahead>, Reason>
    ensures { AheadIn arrays.now list.now x result }
{
    variable_test(arrays, list, x)?;
    let w = words_of(list);
    // Taken apart, so that an edit that exchanges the two names is refused for the fact.
    match look_ahead(arrays, x, &w) {
        None => Ok(None),
        Some(h) => Ok(Some(Ahead {
            value: h.value,
            variable: h.variable,
        })),
    }
}

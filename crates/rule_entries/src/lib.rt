// Rules 1 to 5 alone, on a lent list of a mask for each variable of the ordinary problem: each call reads the file first, then tests what it is lent. It rests on `ternary_decoder`,
// `rule_lend` and the crates of these rules. `arc`, `forward_check`, `look_ahead`, `pure` and `interchangeable` are open to callers.
#![tactic(auto)]

ghost use Rattle.std.specs.Prelude.{◌≡◌};
ghost use Rattle.rule_entries.specs.Alone.{told, told_check, told_look, told_values, told_pure, names_shown, arc_told, arc_left, forward_told, forward_left, ahead_told, pure_told, pure_shown, interchangeable_told};

mod arc_alone;
mod forward_alone;
mod narrow_alone;

use arc_alone::arc_in;
use forward_alone::{ahead_in, forward_in};
use narrow_alone::{interchangeable_in, pure_in};
use refusal::Refusal;
pub use rule_forward::Ahead;
pub use rule_narrow::PureNames;
use solver_arrays::Arrays;
use ternary_decoder::decode_ordinary;

// Rule 1: whether it is a loss. The list is left without dead values, also in a loss.
pub fn arc(f: &[u8], list: &mut [u16]) -> Result<bool, Refusal>
    ensures result_value { told result ≡ arc_told f.now list.old }
    ensures list_after { list.new ≡ arc_left f.now list.old }
{
    let mut arrays = Arrays::empty();
    decode_ordinary(f, &mut arrays)?;
    Ok(arc_in(&arrays, list)?)
}

// Rule 2, for value a of variable x: none where it is no loss, else the lowest later variable that is emptied or holds a clash. The
// list is left as checked, also in a loss.
pub fn forward_check(
    f: &[u8],
    list: &mut [u16],
    x: usize,
    a: usize,
) -> Result<Option<usize>, Refusal>
    ensures result_value { told_check result ≡ forward_told f.now list.old x a }
    ensures list_after { list.new ≡ forward_left f.now list.old x a }
{
    let mut arrays = Arrays::empty();
    decode_ordinary(f, &mut arrays)?;
    Ok(forward_in(&arrays, list, x, a)?)
}

// Rule 3, at variable x: none where it is no loss, else the smallest value whose check loses and the variable that this check names.
pub fn look_ahead(f: &[u8], list: &[u16], x: usize) -> Result<Option<Ahead>, Refusal>
    ensures { told_look result ≡ ahead_told f.now list.now x }
{
    let mut arrays = Arrays::empty();
    decode_ordinary(f, &mut arrays)?;
    Ok(ahead_in(&arrays, list, x)?)
}

// Rule 4: the pure values of variable x; and for each other value of its mask in the list the first variable, in order of play and x left
// out, and the first value of it, that it does not go with.
pub fn pure(f: &[u8], list: &[u16], x: usize) -> Result<PureNames, Refusal>
    ensures told { told_pure result ≡ pure_told f.now list.now x }
    ensures shown { names_shown result ≡ pure_shown f.now list.now x }
{
    let mut arrays = Arrays::empty();
    decode_ordinary(f, &mut arrays)?;
    Ok(pure_in(&arrays, list, x)?)
}

// Rule 5: the smallest of each group of interchangeable values of variable x.
pub fn interchangeable(f: &[u8], list: &[u16], x: usize) -> Result<u16, Refusal>
    ensures { told_values result ≡ interchangeable_told f.now list.now x }
{
    let mut arrays = Arrays::empty();
    decode_ordinary(f, &mut arrays)?;
    Ok(interchangeable_in(&arrays, list, x)?)
}

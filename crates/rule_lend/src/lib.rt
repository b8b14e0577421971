// What is tested of a lent list, and its way into the words of a turn and back. It rests on `refusal` and `solver_arrays`. The public
// functions are for `rule_entries`.
#![tactic(auto)]

ghost use Rattle.std.specs.Prelude.{◌≡◌, ◌≤◌, length};
ghost use Rattle.solver_arrays.specs.Words.{list_in};
ghost use Rattle.rule_lend.specs.Lend.{mask_fits, lendable, value_in, list_test, variable_test, value_test, words_for};

use mask::contains;
use refusal::{Reason, needed};
use solver_arrays::{Arrays, Words};

// The mask m may be lent where the file's is d.
fn mask_fits(m: u16, d: u16) -> bool
    ensures { result ≡ mask_fits m d }
{
    m != 0 && d & m == m
}

// There are n masks, and each may be lent.
fn is_lendable(arrays: &Arrays, list: &[u16]) -> bool
    ensures { result ≡ lendable arrays.now.n arrays.now.domains list.now }
{
    list.len() == arrays.n && (0..arrays.n).all(|i| mask_fits(list[i], arrays.domains[i]))
}

// a is a value of variable x in the list.
fn is_value(list: &[u16], x: usize, a: usize) -> bool
    ensures { result ≡ value_in list.now x a }
{
    a < 16 && x < list.len() && contains(list[x], a)
}

// The tests of a call, in their order: 13; 13, 11; 13, 11, 10.
#[tactic(auto, unfolding(crate::specs::Lend::list_test))]
pub fn list_test(arrays: &Arrays, list: &[u16]) -> Result<(), Reason>
    ensures { result ≡ list_test (lendable arrays.now.n arrays.now.domains list.now) }
{
    needed(is_lendable(arrays, list), Reason::Lent)
}

pub fn variable_test(arrays: &Arrays, list: &[u16], x: usize) -> Result<(), Reason>
    ensures { result ≡ variable_test
        (lendable arrays.now.n arrays.now.domains list.now) arrays.now.n x }
{
    let s = list_test(arrays, list);
    let t = needed(x < arrays.n, Reason::Variable);
    // `and`, so that an edit that exchanges the tests is refused for the fact.
    s.and(t)
}

pub fn value_test(arrays: &Arrays, list: &[u16], x: usize, a: usize) -> Result<(), Reason>
    ensures { result ≡ value_test
        (lendable arrays.now.n arrays.now.domains list.now) arrays.now.n list.now x a }
{
    variable_test(arrays, list, x)?;
    needed(is_value(list, x, a), Reason::Value)
}

// The words of a turn with the masks of the list, and zero behind them.
pub fn words_of(list: &[u16]) -> Words
    requires { length list.now ≤ 128 }
    ensures { result ≡ words_for list.now }
{
    let mut w = [0u16; 128];
    w[..list.len()].copy_from_slice(list);
    w
}

// The first words go back into the list.
pub fn put_back(w: &Words, list: &mut [u16])
    requires { length list.old ≤ 128 }
    ensures { list.new ≡ list_in (length list.old) w.now }
{
    let n = list.len();
    list.copy_from_slice(&w[..n]);
}

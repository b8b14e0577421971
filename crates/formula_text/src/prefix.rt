// The lines of the prefix.
ghost use Rattle.std.specs.Prelude.{◌≡◌, ◌≤◌, ◌<◌};
ghost use Rattle.buffer.specs.Put.{Put};
ghost use Rattle.formula.specs.Text.{line_start};
ghost use Rattle.formula_text.specs.Body.{turn_text, opening_text, block_text, blocks_text, closes_in, all_in, fresh_text, prefix_lines};

use buffer::Text;
use formula_words::{base_of, coding_of, put_end, put_words};
use mask::contains;
use solver_arrays::Arrays;

// How a line begins: a letter for its side.
#[tactic(auto, unfolding(formula::specs::Text::letter))]
fn put_side(t: &mut Text, universal: bool)
    ensures { Put t.old (line_start universal) t.new }
{
    if universal {
        t.put(b"a ");
    } else {
        t.put(b"e ");
    }
}

// From a line of side u to one of side w: nothing where they are equal.
fn put_turn(t: &mut Text, u: bool, w: bool)
    ensures { Put t.old (turn_text u w) t.new }
{
    if u != w {
        put_end(t);
        put_side(t, w);
    }
}

// What stands before the booleans of variable i.
fn put_opening(t: &mut Text, universal: u32, i: usize)
    requires { i < 32 }
    ensures { Put t.old (opening_text universal i) t.new }
{
    let w = contains(universal, i);
    if i == 0 {
        put_side(t, w);
    } else {
        put_turn(t, contains(universal, i - 1), w);
    }
}

// The booleans of variable i.
fn put_block(t: &mut Text, arrays: &Arrays, i: usize)
    requires { i < 32 }
    ensures { Put t.old (block_text arrays.now i) t.new }
{
    let x = coding_of(arrays, i);
    put_opening(t, arrays.universal, i);
    put_words(t, x.base as usize, x.width as usize);
}

fn put_blocks(t: &mut Text, arrays: &Arrays)
    ensures { Put t.old (blocks_text arrays.now) t.new }
{
    for i in 0..arrays.n {
        put_block(t, arrays, i);
    }
}

// Whether the last variable is universal, so that a fresh existential boolean closes the prefix.
#[tactic(auto, unfolding(crate::specs::Body::closes_in))]
pub fn closes(arrays: &Arrays) -> bool
    ensures { result ≡ closes_in arrays.now }
{
    contains(arrays.universal, arrays.n - 1)
}

// How many booleans the variables become.
#[tactic(auto, unfolding(crate::specs::Body::all_in))]
pub fn all_booleans(arrays: &Arrays) -> usize
    ensures { (result ≡ all_in arrays.now) × (result ≤ 512) }
{
    base_of(arrays, arrays.n)
}

// The fresh boolean, if there is one.
fn put_fresh(t: &mut Text, arrays: &Arrays)
    ensures { Put t.old (fresh_text arrays.now) t.new }
{
    if closes(arrays) {
        put_turn(t, true, false);
        put_words(t, all_booleans(arrays), 1);
    }
}

pub fn put_prefix(t: &mut Text, arrays: &Arrays)
    ensures { Put t.old (prefix_lines arrays.now) t.new }
{
    put_blocks(t, arrays);
    put_fresh(t, arrays);
    put_end(t);
}

// Literals put one behind another, each with a blank.
ghost use Rattle.std.specs.Prelude.{◌≡◌, ◌++◌, ◌+◌, ◌^◌, ◌≤◌, ◌<◌};
ghost use Rattle.mask.specs.Mask.{bit};
ghost use Rattle.buffer.specs.Put.{Put};
ghost use Rattle.buffer.specs.Decimal.{decimal};
ghost use Rattle.formula.specs.Text.{blank, line_end};
ghost use Rattle.formula_words.specs.Words.{literal_word, words_text, literals_text, bits_denied, denial_of};

use crate::coded::Coded;
use buffer::Text;
use mask::contains;

// A number and a blank.
fn put_word(t: &mut Text, x: usize)
    ensures { Put t.old (decimal x ++ blank) t.new }
{
    t.put_number(x);
    t.put_byte(b' ');
}

// A boolean or its negation, and a blank.
fn put_literal(t: &mut Text, positive: bool, x: usize)
    ensures { Put t.old (literal_word positive x) t.new }
{
    if !positive {
        t.put_byte(b'-');
    }
    put_word(t, x);
}

// The end of a line of numbers.
pub fn put_end(t: &mut Text)
    ensures { Put t.old line_end t.new }
{
    t.put(b"0\n");
}

// The k booleans behind `base`.
pub fn put_words(t: &mut Text, base: usize, k: usize)
    requires { base + k < 2 ^ 32 }
    ensures { Put t.old (words_text base k) t.new }
{
    for i in 0..k {
        put_word(t, base + i + 1);
    }
}

// Bit i of code c, which has 64.
fn code_bit(c: usize, i: usize) -> bool
    ensures { result ≡ bit c i }
{
    i < 64 && contains(c as u64, i)
}

// The opposite of each of the first k bits of code c, low bit first, as literals behind `base`.
fn put_bits(t: &mut Text, base: usize, k: usize, c: usize)
    requires { base + k < 2 ^ 32 }
    ensures { Put t.old (literals_text (bits_denied base k c)) t.new }
{
    for i in 0..k {
        let set = code_bit(c, i);
        put_literal(t, !set, base + i + 1);
    }
}

// The literals that deny way c.
pub fn put_denial(t: &mut Text, x: Coded, c: usize)
    requires { c ≤ 1024 }
    ensures { Put t.old (literals_text (denial_of x c)) t.new }
{
    if x.universal {
        put_bits(t, x.base as usize, x.width as usize, c);
    } else {
        put_literal(t, false, x.base as usize + c + 1);
    }
}

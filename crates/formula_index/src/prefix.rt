// The lines of the prefix: of each boolean whether it is universal.
ghost use Rattle.std.specs.Prelude.{◌≡◌, ◌+◌, ◌*◌, ◌≤◌, ◌^◌};
ghost use Rattle.formula.specs.Text.{literals_at, end_at, is_letter, quantified, blocks_at, blocks_end};
ghost use Rattle.formula_index.specs.Marked.{marked};

use crate::PLACES;
use crate::line::Line;
use crate::reading::byte_at;

#[tactic(auto, unfolding(formula::specs::Text::is_letter))]
fn is_letter(b: u8) -> bool
    ensures { result ≡ is_letter b }
{
    b == b'a' || b == b'e'
}

// The booleans of a line get this side; replies the place behind it.
fn read_line(t: &[u8], p: usize, most: usize, universal: bool, sides: &mut [bool; PLACES]) -> usize
    requires { (p ≤ 2 ^ 59) × (most ≤ 513) }
    ensures value { (result ≡ end_at t.now most p) × (result ≤ p + 11 * most) }
    ensures sides_after { sides.new ≡ marked sides.old (quantified universal (literals_at t.now most p)) }
{
    let mut line = Line::at(t, p, most);
    // Not `for x in &mut line`: behind that loop nothing is known of the place.
    while let Some(x) = line.next() {
        sides[x.boolean % PLACES] = universal;
    }
    line.place
}

// The lines that begin with a letter, no more than `most`.
pub fn read_prefix(t: &[u8], p: usize, most: usize, sides: &mut [bool; PLACES]) -> usize
    requires { (p ≤ 2 ^ 58) × (most ≤ 513) }
    ensures value { (result ≡ blocks_end t.now most most p) × (result ≤ p + 5645 * most) }
    ensures sides_after { sides.new ≡ marked sides.old (blocks_at t.now most most p) }
{
    let mut q = p;
    for _ in 0..most {
        let b = byte_at(t, q);
        if !is_letter(b) {
            return q;
        }
        q = read_line(t, q + 2, most, b == b'a', sides);
    }
    q
}

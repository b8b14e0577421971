// What the rules say after some plays, when the rules of every turn above have run. A search from the position itself starts anew: its
// plays are their own reasons from the first turn on.
ghost use Rattle.std.specs.Prelude.{◌≡◌, true, ◌≤◌, ◌<◌};
ghost use Rattle.solver_arrays.specs.Words.{Nonzero};
ghost use Rattle.search_rules.specs.RuledTurn.{Stated};

use mask::single;
use position::Position;
use rule_set::RuleSet;
use search_rules::run_rules;
use solver_arrays::{Arrays, Words, put_reason};
use ternary_decoder::decode_ordinary;

// The words of a turn with these domains and no reasons.
fn words_of(domains: &[u16; 32]) -> Words {
    let mut w = [0u16; 128];
    w[..32].copy_from_slice(domains);
    w
}

// None of n domains is empty.
fn all_some(n: usize, w: &Words) -> bool
    requires { n ≤ 32 }
    ensures { result ≡ true → Nonzero n w.now }
{
    (0..n).all(|k| w[k] != 0)
}

// The conflict set of the loss that the rules find in the turn after d plays; none where d is no number of plays or a domain is empty.
// All plays are checked again, which changes nothing.
fn ruled(arrays: &Arrays, set: RuleSet, d: usize, w: &mut Words) -> Option<u32>
    requires { Stated arrays.now.n arrays.now }
{
    if arrays.n < d || !all_some(arrays.n, w) {
        return None;
    }
    run_rules(arrays, set, 0, d, w)
        .err()
        .map(|loss| loss.conflict)
}

// Value a of variable d is played, and d is its own reason.
fn play(d: usize, a: u8, w: &mut Words)
    requires { d < 32 }
{
    w[d] = single(a as usize % 16);
    put_reason(w, d, single(d));
}

fn ruled_in(arrays: &Arrays, set: RuleSet, p: Position) -> Option<u32>
    requires { Stated arrays.now.n arrays.now }
{
    let plays = p.plays.min(31);
    let values = p.values;
    let mut w = words_of(&arrays.domains);
    for d in 0..plays {
        ruled(arrays, set, d, &mut w);
        play(d, values[d], &mut w);
    }
    ruled(arrays, set, plays, &mut w)
}

// The same in the turn after the plays of p, in a search from the start under the set of this number; none where one of them is refused.
pub fn ruled_along(f: &[u8], p: Position, set: usize) -> Option<u32> {
    let set = RuleSet::new(set).ok()?;
    let mut arrays = Arrays::empty();
    decode_ordinary(f, &mut arrays).ok()?;
    ruled_in(&arrays, set, p)
}

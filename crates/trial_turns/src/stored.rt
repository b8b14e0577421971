// Stored turns whose loss rule 2 or rule 3 finds. A case: a file, the rule set, the number of plays and the values played; 0 for the first
// turn of a search from there, 1 for the turn of a search from the start after these plays; the rule, the variable that its loss names, and
// as bits the played variables that share a constraint with it. The rules find a loss, and its conflict set holds these.
use crate::along::ruled_along;
use crate::searches::searched;
use position::Position;
use trial_stored::played;
use trial_vectors::{Stored, Tally, all_cases, byte};

// A file, the rule set, the position; whether the search begins at the start; and the bits that the conflict set of the loss holds.
#[derive(Clone, Copy)]
struct Turn<'a> {
    file: &'a [u8],
    set: usize,
    position: Position,
    from_start: bool,
    bits: u32,
}

fn next_turn<'a>(s: &mut Stored<'a>) -> Turn<'a> {
    let file = s.file();
    let set = s.byte();
    let position = played(s);
    let from_start = s.byte() != 0;
    let _named = s.part(2);
    let low = s.word() as u32;
    let high = s.word() as u32;
    Turn {
        file,
        set,
        position,
        from_start,
        bits: low | (high << 16),
    }
}

// The conflict set of the loss at this turn, or none.
fn found_at(from_start: bool, f: &[u8], p: Position, set: usize) -> Option<u32> {
    if from_start {
        return ruled_along(f, p, set);
    }
    match searched(f, p, set) {
        Ok(r) if r.outcome.by_rules() => Some(r.outcome.conflict()),
        _ => None,
    }
}

fn agrees(c: Turn) -> bool {
    let bits = c.bits;
    found_at(c.from_start, c.file, c.position, c.set).is_some_and(|conflict| conflict & bits
        == bits)
}

// The next case, counted where all variables are played, or in any case.
fn one_turn(whole: bool, s: &mut Stored, t: Tally) -> Tally {
    let c = next_turn(s);
    if whole && c.position.plays != byte(c.file, 2) {
        t
    } else {
        t.counted(agrees(c))
    }
}

// All cases, or those alone where all variables are played.
pub fn all_turns(whole: bool, s: &[u8]) -> Tally {
    all_cases(s, |stored, t| one_turn(whole, stored, t))
}

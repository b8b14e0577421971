// Judges, marks and opens stored games. stdin is the first quarter of cases/game.bin (cases/README.md). Each game is judged and marked
// under every rule set, with up to 127 words of dirty room more than needed, and once with one word too few. It rests on `trial_stored`
// and `trial_vectors`.
#![tactic(auto)]

mod stored;

use std::io;
use stored::Game;
use trial_stored::{judges, marks, needed, opens};
use trial_vectors::{Refused, Stored, Tally, all_cases, byte, input, report};

// The verdict under each of the 128 rule sets.
fn judged(s: &mut Stored, t: Tally) -> Tally {
    let g = Game::next(s);
    let words = needed(byte(g.file, 2));
    (0..128).fold(t, |t, set| {
        t.counted(judges(g.file, g.position, set, words + set, g.verdict))
    })
}

// The marks under each.
fn marked(s: &mut Stored, t: Tally) -> Tally {
    let g = Game::next(s);
    let words = needed(byte(g.file, 2));
    (0..128).fold(t, |t, set| {
        t.counted(marks(g.file, g.position, set, words + set, g.marks))
    })
}

fn opened(s: &mut Stored, t: Tally) -> Tally {
    let g = Game::next(s);
    t.counted(opens(g.open, g.file, g.position, Ok((0, 0))))
}

// With one word too few both calls refuse: by 12, or by what they answer before that.
fn short(s: &mut Stored, t: Tally) -> Tally {
    let g = Game::next(s);
    let words = needed(byte(g.file, 2)) - 1;
    let few = Err(Refused::call(12));
    let marking = g.marks.and(few);
    t.counted(judges(g.file, g.position, 127, words, few))
        .counted(marks(g.file, g.position, 127, words, marking))
}

fn main(rt: HostRuntime) -> io::Result<()> {
    let s = input(&rt);
    report(&rt, b"verdicts under all sets ", all_cases(&s, judged))?;
    report(&rt, b"marks under all sets ", all_cases(&s, marked))?;
    report(&rt, b"games opened ", all_cases(&s, opened))?;
    report(&rt, b"room one word short ", all_cases(&s, short))
}

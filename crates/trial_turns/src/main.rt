// Conflict sets, which no entry shows of turns below the first: at a sample problem along given plays, and at stored turns. stdin is the
// number of these, then the turns (cases/README.md). It rests on `search_rules`, `judging`, `buffer`,
// `trial_stored` and `trial_vectors`.
#![tactic(auto)]

mod along;
mod sample;
mod searches;
mod stored;

use std::io;
use trial_vectors::{input, report};

fn main(rt: HostRuntime) -> io::Result<()> {
    report(&rt, b"conflict sets ", sample::all_sets())?;
    let s = input(&rt);
    report(&rt, b"stored turns ", stored::all_turns(false, &s))?;
    report(&rt, b"all played among them ", stored::all_turns(true, &s))
}

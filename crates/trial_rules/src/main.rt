// Runs the five rules alone over stored cases, and drives every refusal of the five calls. stdin is the first quarter of cases/rules.bin
// (cases/README.md). It rests on `rule_entries` and `trial_vectors`.
#![tactic(auto)]

mod calls;
mod refusals;
mod stored;

use calls::Rule;
use std::io;
use stored::Case;
use trial_vectors::{Tally, all_cases, input, report};

fn cases(rule: Rule, s: &[u8]) -> Tally {
    all_cases(s, |stored, t| t.counted(Case::next(stored).agrees(rule)))
}

fn main(rt: HostRuntime) -> io::Result<()> {
    let s = input(&rt);
    report(&rt, b"arc cases ", cases(Rule::Arc, &s))?;
    report(&rt, b"forward check cases ", cases(Rule::ForwardCheck, &s))?;
    report(&rt, b"look ahead cases ", cases(Rule::LookAhead, &s))?;
    report(&rt, b"pure cases ", cases(Rule::Pure, &s))?;
    report(
        &rt,
        b"interchangeable cases ",
        cases(Rule::Interchangeable, &s),
    )?;
    report(&rt, b"refusals ", refusals::all_refusals())
}

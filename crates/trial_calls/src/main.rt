// Makes the stored calls: plays, take-backs, marks, open values and judgements. stdin is the first quarter of cases/calls.bin
// (cases/README.md). It rests on `session`, `trial_stored` and `trial_vectors`.
#![tactic(auto)]

mod kinds;
mod stored;

use kinds::Kind;
use position::Position;
use refusal::Refusal;
use session::{play, take_back};
use std::io;
use stored::{Call, position};
use trial_stored::{judges, marks, opens};
use trial_vectors::{Refused, Stored, Tally, all_cases, input, report};

// The play or take-back answered as stored, and it led to the stored position.
fn led(c: Call, r: Result<Position, Refusal>) -> bool {
    let mut shown = c.shown;
    let answer = r.map(|_| (0, 0)).map_err(Refused::from);
    answer == c.answer && r.ok().is_none_or(|p| p == position(&mut shown))
}

fn agrees(kind: Kind, c: Call) -> bool {
    let p = c.position;
    match kind {
        Kind::Play => led(c, play(c.file, p, c.argument)),
        Kind::TakeBack => led(c, take_back(c.file, p)),
        Kind::Mark => marks(c.file, p, c.argument, c.room, c.answer),
        Kind::Open => opens(c.shown, c.file, p, c.answer),
        Kind::Judge => judges(c.file, p, c.argument, c.room, c.answer),
    }
}

// One call, counted where it is of this kind.
fn one_call(kind: Kind, s: &mut Stored, t: Tally) -> Tally {
    let c = Call::next(s);
    if c.kind == Some(kind) {
        t.counted(agrees(kind, c))
    } else {
        t
    }
}

fn calls(kind: Kind, s: &[u8]) -> Tally {
    all_cases(s, |stored, t| one_call(kind, stored, t))
}

fn main(rt: HostRuntime) -> io::Result<()> {
    let s = input(&rt);
    report(&rt, b"play cases ", calls(Kind::Play, &s))?;
    report(&rt, b"take-back cases ", calls(Kind::TakeBack, &s))?;
    report(&rt, b"mark cases ", calls(Kind::Mark, &s))?;
    report(&rt, b"open cases ", calls(Kind::Open, &s))?;
    report(&rt, b"judge cases ", calls(Kind::Judge, &s))
}

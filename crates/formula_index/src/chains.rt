// Where each clause begins, and the clauses of each last boolean as a chain.
ghost use Rattle.std.specs.Prelude.{◌≡◌, ◌+◌, ◌*◌, ◌≤◌, ◌^◌};
ghost use Rattle.formula.specs.Text.{literals_at, end_at};
ghost use Rattle.formula_index.specs.Chains.{last_from, start_to, next_to, head_to};

use crate::line::Line;
use crate::{CLAUSES, PLACES};

// The last boolean of a clause, 0 where it has none, and the place behind it.
#[derive(Clone, Copy)]
pub struct Clause {
    pub last: usize,
    pub after: usize,
}

fn clause_at(t: &[u8], p: usize, most: usize) -> Clause
    requires { (p ≤ 2 ^ 59) × (most ≤ 513) }
    ensures last_value { (result.last ≡ last_from 0 (literals_at t.now most p)) × (result.after ≡ end_at t.now most p) }
    ensures after_bound { result.after ≤ p + 11 * most }
{
    let mut line = Line::at(t, p, most);
    let mut last = 0;
    // Not `for x in &mut line`: behind that loop nothing is known of the place.
    while let Some(x) = line.next() {
        last = x.boolean;
    }
    Clause {
        last,
        after: line.place,
    }
}

// Of each of the first c clauses: where it begins, and which one before it has the same last boolean; of each boolean the last clause that
// ends with it. A clause is told by its number plus one, none by 0 (an `Option` would double the arrays).
pub fn read_clauses(
    t: &[u8],
    p: usize,
    most: usize,
    c: usize,
    start: &mut [u32; CLAUSES],
    next: &mut [u32; CLAUSES],
    head: &mut [u32; PLACES],
)
    requires { (p ≤ 2 ^ 24) × (most ≤ 513) × (c ≤ 127008) }
    ensures start_after { start.new ≡ start_to t.now most p start.old c }
    ensures next_after { next.new ≡ next_to t.now most p next.old head.old c }
    ensures head_after { head.new ≡ head_to t.now most p head.old c }
{
    let mut q = p;
    for k in 0..c {
        let x = clause_at(t, q, most);
        let last = x.last % PLACES;
        start[k] = q as u32;
        next[k] = head[last];
        head[last] = (k + 1) as u32;
        q = x.after;
    }
}

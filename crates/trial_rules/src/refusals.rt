// Every refusal of the five calls on one small file (G1 of document 01), the first where two apply, and the list kept. The numbers are
// document 01's.
use crate::calls::{Rule, called};
use trial_vectors::{Answer, Refused, Tally, part, put};

fn sample() -> [u8; 51] {
    let mut g = [0u8; 51];
    put(
        &mut g,
        0,
        b"QP\x02\x01\x00VA\x03\x00VE\x03\x00CT\x00\x01\x02\x00\x01",
    );
    put(&mut g, 49, b"EN");
    g
}

// The list of the masks u and v, and two more.
fn lent(u: u16, v: u16) -> [u16; 32] {
    let mut l = [0u16; 32];
    l[0] = u;
    l[1] = v;
    l[2] = 3;
    l
}

// The rule on the first k bytes of the file and the first n of these masks answers this, and keeps the list.
fn keeps(
    rule: Rule,
    k: usize,
    u: u16,
    v: u16,
    n: usize,
    x: usize,
    a: usize,
    answer: Answer,
) -> bool {
    let g = sample();
    let before = lent(u, v);
    let mut l = lent(u, v);
    called(rule, part(&g, 0, k), &mut l, n, x, a) == answer && l == before
}

// On the first n of these masks it refuses by this number.
fn refuses(rule: Rule, u: u16, v: u16, n: usize, x: usize, a: usize, number: usize) -> bool {
    keeps(rule, 51, u, v, n, x, a, Err(Refused::call(number)))
}

// On the first k bytes of the file, with a list, a variable and a value that would be refused too, it refuses by this number and place.
fn refuses_at(rule: Rule, k: usize, number: usize, place: usize) -> bool {
    keeps(rule, k, 0, 4, 3, 9, 9, Err(Refused::file(number, place)))
}

// The file's refusals and 13, which all five have; each with a variable and a value that would be refused too.
fn files_and_lists(rule: Rule, t: Tally) -> Tally {
    t.counted(refuses_at(rule, 0, 1, 0))
        .counted(refuses_at(rule, 12, 1, 9))
        .counted(refuses_at(rule, 50, 1, 49))
        .counted(refuses(rule, 3, 3, 0, 9, 9, 13))
        .counted(refuses(rule, 3, 3, 1, 9, 9, 13))
        .counted(refuses(rule, 3, 3, 3, 9, 9, 13))
        .counted(refuses(rule, 0, 3, 2, 9, 9, 13))
        .counted(refuses(rule, 3, 0, 2, 9, 9, 13))
        .counted(refuses(rule, 5, 3, 2, 9, 9, 13))
        .counted(refuses(rule, 3, 4, 2, 9, 9, 13))
}

// 11, which all but arc have.
fn variables(rule: Rule, t: Tally) -> Tally {
    t.counted(refuses(rule, 3, 3, 2, 2, 9, 11))
        .counted(refuses(rule, 3, 1, 2, 4294967296, 16, 11))
}

// 10, of the forward check alone: outside the file's mask, outside the lent mask alone, and no value at all.
fn values(t: Tally) -> Tally {
    let rule = Rule::ForwardCheck;
    t.counted(refuses(rule, 3, 3, 2, 0, 2, 10))
        .counted(refuses(rule, 1, 3, 2, 0, 1, 10))
        .counted(refuses(rule, 3, 2, 2, 1, 0, 10))
        .counted(refuses(rule, 3, 3, 2, 1, 16, 10))
        .counted(refuses(rule, 3, 3, 2, 1, 4294967296, 10))
}

pub fn all_refusals() -> Tally {
    let with_variable = [
        Rule::ForwardCheck,
        Rule::LookAhead,
        Rule::Pure,
        Rule::Interchangeable,
    ];
    let mut t = files_and_lists(Rule::Arc, Tally::default());
    for rule in with_variable {
        t = variables(rule, files_and_lists(rule, t));
    }
    values(t)
}

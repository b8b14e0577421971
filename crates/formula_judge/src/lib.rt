// The judge of a formula's text (document 02, card 1): it goes through the prefix one boolean at a time and calls itself for the rest. It
// is handed the text and nothing else. A branch ends where a clause has all its booleans decided and is false; a call looks only at the
// clauses whose last boolean was just decided. It rests on `formula_index` and `formula_theory`. `judge_text` is for `formula_entries`.
#![tactic(auto)]

ghost use Rattle.std.specs.Prelude.{◌≡◌, ℕ, ◌+◌, ◌≤◌, ◌<◌, false, get_or, set};
ghost use Rattle.formula.specs.Formula.{clause_holds, judge_formula};
ghost use Rattle.formula.specs.Text.{read_text};
ghost use Rattle.formula_judge.specs.Judgeable.{Judgeable};
ghost use Rattle.formula_judge.specs.Rest.{values_in, Links, clause_at, hold_at, Rest};

use formula_index::{CLAUSES, Line, PLACES, number_at, read_clauses, read_prefix};

// A text with its index, and how many booleans are in its prefix. A chain of clauses goes down.
#[derive(Clone, Copy)]
struct Index<'a> {
    text: &'a [u8],
    start: &'a [u32; CLAUSES],
    next: &'a [u32; CLAUSES],
    head: &'a [u32; PLACES],
    sides: &'a [bool; PLACES],
    count: usize,
    ghost small: { count ≤ 512 },
    ghost inside: { (v : ℕ) → get_or head.now v 0 ≤ 127008 },
    ghost falls: { (k : ℕ) → get_or next.now k 0 ≤ k },
}

// The value of a boolean.
#[tactic(auto, unfolding(crate::specs::Rest::values_in))]
fn value_of(values: &[bool; PLACES], b: usize) -> bool
    ensures { result ≡ values_in values.now b }
{
    values[b % PLACES]
}

impl<'a> Index<'a> {
    // Whether clause k holds.
    fn clause_holds(&self, k: usize, values: &[bool; PLACES]) -> bool
        requires { k < 127008 }
        ensures { result ≡ clause_holds (values_in values.now) (clause_at self.now.text.now self.now.start.now (self.now.count + 1) k) }
    {
        let mut line = Line::at(self.text, self.start[k] as usize, self.count + 1);
        line.any(|x| value_of(values, x.boolean) != x.negative)
    }

    // Whether every clause whose last boolean is v holds.
    fn clauses_hold(&self, v: usize, values: &[bool; PLACES]) -> bool
        requires { v < 513 }
        ensures { (last : ℕ → ℕ) (c : ℕ) → Links last c self.now.next.now self.now.head.now
            → result ≡ hold_at self.now.text.now self.now.start.now (self.now.count + 1) last c v values.now }
    {
        let mut x = self.head[v] as usize;
        while let Some(k) = x.checked_sub(1) {
            if !self.clause_holds(k, values) {
                return false;
            }
            x = self.next[k] as usize;
        }
        true
    }

    // The boolean behind the first `done` gets the value x; whether every clause that it decides holds.
    fn decided(&self, done: usize, x: bool, values: &mut [bool; PLACES]) -> bool
        requires { done < 512 }
        ensures values_after { values.new ≡ set values.old (done + 1) x }
        ensures by_index { (last : ℕ → ℕ) (c : ℕ) → Links last c self.now.next.now self.now.head.now
            → result ≡ hold_at self.now.text.now self.now.start.now (self.now.count + 1) last c (done + 1) values.new }
    {
        let v = done + 1;
        values[v] = x;
        self.clauses_hold(v, values)
    }

    // Whether boolean v is universal.
    fn is_universal(&self, v: usize) -> bool
        requires { v < 513 }
        ensures { result ≡ get_or self.now.sides.now v false }
    {
        self.sides[v]
    }

    // The formula with `left` of its booleans to come, under the values of the others.
    fn judge_rest(&self, left: usize, values: &mut [bool; PLACES]) -> bool
        requires { left ≤ self.now.count }
        ensures { Rest self.now.text.now self.now.start.now self.now.next.now self.now.head.now self.now.sides.now self.now.count
            left values.old values.new result }
    {
        if left == 0 {
            return true;
        }
        let done = self.count - left;
        let rest = left - 1;
        let all = self.is_universal(done + 1);
        let no = self.decided(done, false, values) && self.judge_rest(rest, values);
        if no != all {
            return no;
        }
        self.decided(done, true, values) && self.judge_rest(rest, values)
    }
}

// Whether the formula that the text states is won.
pub fn judge_text(t: &[u8]) -> bool
    ensures { Judgeable t.now → result ≡ judge_formula (read_text t.now) }
{
    let mut start = [0u32; CLAUSES];
    let mut next = [0u32; CLAUSES];
    let mut head = [0u32; PLACES];
    let mut sides = [false; PLACES];
    let mut values = [false; PLACES];
    let v = number_at(t, 6);
    let c = number_at(t, v.after);
    let count = v.value.min(512);
    let q = read_prefix(t, c.after, count + 1, &mut sides);
    read_clauses(
        t,
        q,
        count + 1,
        c.value.min(CLAUSES),
        &mut start,
        &mut next,
        &mut head,
    );
    // A clause without literals is false.
    if head[0] != 0 {
        return false;
    }
    let index = Index {
        text: t,
        start: &start,
        next: &next,
        head: &head,
        sides: &sides,
        count,
    };
    index.judge_rest(count, &mut values)
}

// Tests on a problem's numbers.
ghost use Rattle.std.specs.Prelude.{◌≡◌, ℕ, ◌<◌, ◌≤◌};
ghost use Rattle.file_layout.specs.Numbers.{counts_fit, in_order, pair_of, row_fits, constraint_fits, Gives};
ghost use Rattle.file_layout.specs.Numbers.{scope_of, triple_of, count_fits, ternary_fits};

use mask::{contains, holds, within};
use refusal::{Reason, needed};

// n from 1 to 32, and m at most n (n - 1) / 2.
#[tactic(auto, unfolding(crate::specs::Numbers::counts_fit))]
pub fn counts_fit(n: usize, m: usize) -> bool
    ensures { result ≡ counts_fit n m }
{
    1 <= n && n <= 32 && m <= n * (n - 1) / 2
}

// i < j < n.
#[tactic(auto, unfolding(crate::specs::Numbers::in_order))]
pub fn in_order(i: usize, j: usize, n: usize) -> bool
    ensures { result ≡ in_order i j n }
{
    i < j && j < n
}

// A pair as one number, which ascends as the pairs do where j is below 32.
#[tactic(auto, unfolding(crate::specs::Numbers::pair_of))]
pub fn pair_of(i: usize, j: usize) -> usize
    requires { (i < 65536) × (j < 65536) }
    ensures { result ≡ pair_of i j }
{
    32 * i + j
}

// Row a has no bit outside the domains di and dj.
fn row_fits(di: u16, dj: u16, a: usize, row: u16) -> bool
    requires { a < 16 }
    ensures { result ≡ row_fits di dj a row }
{
    if contains(di, a) {
        within(row, dj)
    } else {
        row == 0
    }
}

// One constraint's numbers, for reader and writer: the pair in order, above the pair before it, and no stray bit in its 16 rows.
pub fn constraint_fits<D: Fn(usize) -> u16, R: Fn(usize) -> u16>(
    domain: D,
    n: usize,
    last: usize,
    i: usize,
    j: usize,
    row: R,
) -> Result<(), Reason>
    requires few { n ≤ 32 }
    requires domains { (v : ℕ) → v < n → D.pre domain v }
    requires rows { (a : ℕ) → a < 16 → R.pre row a }
    ensures { (d r : ℕ → ℕ) → Gives (D.post domain) n d → Gives (R.post row) 16 r
        → result ≡ constraint_fits d n last i j r }
{
    needed(in_order(i, j, n), Reason::Pair)?;
    needed(last < pair_of(i, j), Reason::Order)?;
    let di = domain(i);
    let dj = domain(j);
    // Without an early exit the rows are tested side by side.
    let mut fits = true;
    for a in 0..16 {
        fits &= row_fits(di, dj, a, row(a));
    }
    needed(fits, Reason::Stray)
}

// Three variables as one number, which ascends as they do where the later ones are below 32.
#[tactic(auto, unfolding(crate::specs::Numbers::scope_of))]
pub fn scope_of(i: usize, j: usize, k: usize) -> usize
    requires { (i < 65536) × (j < 65536) × (k < 65536) }
    ensures { result ≡ scope_of i j k }
{
    1024 * i + 32 * j + k
}

// Three values as one number, likewise below 16.
#[tactic(auto, unfolding(crate::specs::Numbers::triple_of))]
fn triple_of(a: usize, b: usize, c: usize) -> usize
    requires { (a < 65536) × (b < 65536) × (c < 65536) }
    ensures { result ≡ triple_of a b c }
{
    256 * a + 16 * b + c
}

// 1 to 16.
#[tactic(auto, unfolding(crate::specs::Numbers::count_fits))]
fn count_fits(c: usize) -> bool
    ensures { result ≡ count_fits c }
{
    1 <= c && c <= 16
}

// One three-way constraint's numbers, for reader and writer: the variables in order and above those of the record before, the count, and
// each triple of values in the three domains and above the triple before.
pub fn ternary_fits<D: Fn(usize) -> u16, X: Fn(usize) -> u16>(
    domain: D,
    n: usize,
    last: usize,
    number: X,
) -> bool
    requires few { n ≤ 32 }
    requires domains { (v : ℕ) → v < n → D.pre domain v }
    requires numbers { (k : ℕ) → k < 52 → X.pre number k }
    ensures { (d x : ℕ → ℕ) → Gives (D.post domain) n d → Gives (X.post number) 52 x
        → result ≡ ternary_fits d n last x }
{
    let i = number(0) as usize;
    let j = number(1) as usize;
    let k = number(2) as usize;
    let count = number(3) as usize;
    let ordered = i < j && in_order(j, k, n);
    if !ordered {
        return false;
    }
    let above = last < scope_of(i, j, k);
    if !above {
        return false;
    }
    let counted = count_fits(count);
    if !counted {
        return false;
    }
    let di = domain(i);
    let dj = domain(j);
    let dk = domain(k);
    // One above the triple before, so that the first is above none.
    let mut next = 0;
    for q in 0..count {
        let a = number(3 * q + 4) as usize;
        let b = number(3 * q + 5) as usize;
        let c = number(3 * q + 6) as usize;
        let inside = holds(di, a) && holds(dj, b);
        if !inside || !holds(dk, c) {
            return false;
        }
        let triple = triple_of(a, b, c);
        if triple < next {
            return false;
        }
        next = triple + 1;
    }
    true
}

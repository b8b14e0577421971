// The writer's tests, all made before anything is written.
ghost use Rattle.std.specs.Prelude.{◌≡◌, ◌*◌, ◌^◌, ◌≤◌, true, ltb, length};
ghost use Rattle.file_bytes.specs.Bytes.{domain_in, from, count_in, whole_records, handed_with};
ghost use Rattle.file_writer.specs.Tests.{lists_fit, rules_fit, domains_fit, constraints_test, ternaries_test, rest_test};

use file_bytes::{Numbers, size_in};
use file_layout::{constraint_fits, pair_of, scope_of, ternary_fits};
use refusal::{Reason, needed};
use rule_set::is_rule_set;

// Lists of these lengths hold n domains and 18 numbers a constraint.
#[tactic(auto, unfolding(crate::specs::Tests::lists_fit))]
pub fn lists_fit(n: usize, m: usize, domains: usize, constraints: usize) -> bool
    requires { m ≤ 496 }
    ensures { result ≡ lists_fit n m domains constraints }
{
    domains == n && constraints == 18 * m
}

#[tactic(auto, unfolding(crate::specs::Tests::rules_fit))]
fn rules_fit(rules: Option<u8>) -> bool
    ensures { result ≡ rules_fit rules }
{
    rules.is_none_or(|k| is_rule_set(k as usize))
}

// No universal bit at n or above.
fn universal_fits(x: Numbers) -> bool
    ensures { result ≡ ltb x.universal (2 ^ x.n) }
{
    x.universal < 1 << x.n
}

// No domain is empty.
fn domains_fit(domains: &[u16]) -> bool
    ensures { result ≡ domains_fit (domain_in domains.now) (length domains.now) }
{
    domains.iter().all(|d| *d != 0)
}

// Each constraint, behind the one before it.
fn constraints_test(x: Numbers, domains: &[u16], xs: &[u16]) -> Result<(), Reason>
    requires { (x.n ≤ length domains.now) × (18 * x.m ≤ length xs.now) }
    ensures { result ≡ constraints_test (domain_in domains.now) x.n xs.now x.m }
{
    let mut last = 0;
    for t in 0..x.m {
        let i = xs[18 * t] as usize;
        let j = xs[18 * t + 1] as usize;
        constraint_fits(|v| domains[v], x.n, last, i, j, |a| xs[18 * t + 2 + a])?;
        last = pair_of(i, j);
    }
    Ok(())
}

// Number i behind base; 0 behind the list's end.
fn number_in(xs: &[u16], base: usize, i: usize) -> u16
    requires { (i ≤ 65535) × (base ≤ length xs.now) }
    ensures { result ≡ from xs.now base i }
{
    xs.get(base + i).map_or(0, |x| *x)
}

// Each three-way constraint, behind the one before it: 27, 26.
fn ternaries_test(x: Numbers, domains: &[u16], xs: &[u16]) -> Result<(), Reason>
    requires masks { x.n ≤ length domains.now }
    requires count { x.t ≡ count_in xs.now }
    ensures { result ≡ ternaries_test (domain_in domains.now) x.n xs.now x.t }
{
    let mut base = 0;
    let mut last = 0;
    for k in 0..x.t {
        let many = needed(x.n + k + 1 <= 32, Reason::Many);
        let fits = ternary_fits(|v| domains[v], x.n, last, |i| number_in(xs, base, i));
        let triple = needed(fits, Reason::Triple);
        // `and`, so that an edit that exchanges the tests is refused for the fact.
        many.and(triple)?;
        last = scope_of(
            number_in(xs, base, 0) as usize,
            number_in(xs, base, 1) as usize,
            number_in(xs, base, 2) as usize,
        );
        base += size_in(xs, base);
    }
    Ok(())
}

// What is tested of lists of the right lengths.
pub fn rest_test(
    x: Numbers,
    domains: &[u16],
    constraints: &[u16],
    ternaries: &[u16],
    room: usize,
) -> Result<(), Reason>
    requires lists { lists_fit x.n x.m (length domains.now) (length constraints.now) ≡ true }
    requires records { (whole_records ternaries.now ≡ true) × (x.t ≡ count_in ternaries.now) }
    ensures { result ≡ rest_test (handed_with x domains.now constraints.now ternaries.now) room }
{
    needed(rules_fit(x.rules), Reason::Rules)?;
    needed(universal_fits(x), Reason::Variable)?;
    needed(domains_fit(domains), Reason::Domain)?;
    constraints_test(x, domains, constraints)?;
    ternaries_test(x, domains, ternaries)?;
    needed(x.length(ternaries.len()) <= room, Reason::Room)
}

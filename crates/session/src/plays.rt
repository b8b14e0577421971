// A play, a take-back, a lock and an unlock over n variables and their domains.
ghost use Rattle.std.specs.Prelude.{◌≡◌, ◌≤◌};
ghost use Rattle.session.specs.Plays.{play_in, take_back_in, lock_in, unlock_in};

use mask::holds;
use position::{Position, fit_test, held, popped, pushed};
use refusal::{Reason, needed};

pub fn play_in(n: usize, domains: &[u16; 32], p: Position, value: usize) -> Result<Position, Reason>
    requires { n ≤ 32 }
    ensures { result ≡ play_in n domains.now p value }
{
    fit_test(n, domains, p)?;
    needed(p.plays < n, Reason::Full)?;
    needed(holds(domains[p.plays], value), Reason::Value)?;
    Ok(pushed(p, value as u8))
}

pub fn take_back_in(n: usize, domains: &[u16; 32], p: Position) -> Result<Position, Reason>
    requires { n ≤ 32 }
    ensures { result ≡ take_back_in n domains.now p }
{
    fit_test(n, domains, p)?;
    needed(0 < p.plays, Reason::Bare)?;
    needed(p.plays != p.depth, Reason::Locked)?;
    Ok(popped(p))
}

pub fn lock_in(n: usize, domains: &[u16; 32], p: Position) -> Result<Position, Reason>
    ensures { result ≡ lock_in n domains.now p }
{
    fit_test(n, domains, p)?;
    Ok(held(p, p.plays))
}

pub fn unlock_in(
    n: usize,
    domains: &[u16; 32],
    p: Position,
    number: usize,
) -> Result<Position, Reason>
    ensures { result ≡ unlock_in n domains.now p number }
{
    fit_test(n, domains, p)?;
    needed(number <= p.depth, Reason::Depth)?;
    Ok(held(p, number))
}

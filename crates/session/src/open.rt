// The open values of a position over the arrays of a problem. Only their own variables count: the others are not to play.
ghost use Rattle.std.specs.Prelude.{◌≡◌, cond, ◌≤◌, ◌<◌};
ghost use Rattle.session.specs.Opening.{play_clashes, cause_at, stuck_to, open_at, open_all, OpenIn};

use crate::Opened;
use mask::{contains, count_of, single};
use position::{Position, fit_test};
use refusal::Reason;
use solver_arrays::{Arrays, value_at};

// The value played at variable j clashes with an earlier one.
fn play_clashes(arrays: &Arrays, p: Position, j: usize) -> bool
    requires { j < 32 }
    ensures { result ≡ play_clashes arrays.now p.values j }
{
    let own: u16 = single(value_at(&p.values, j));
    let kept = arrays.going_with(&p.values, j, own, j);
    kept == 0
}

// A cause at variable j, for which no unplayed variable has an open value.
fn stuck_at(arrays: &Arrays, p: Position, j: usize) -> bool
    requires { (p.plays ≤ 32) × (j < 32) }
    ensures { result ≡ cause_at arrays.now p j }
{
    if j < p.plays {
        return play_clashes(arrays, p, j);
    }
    let m = arrays.domains[j];
    let left = arrays.going_with(&p.values, p.plays, m, j);
    if contains(arrays.universal, j) {
        return left != m;
    }
    left == 0
}

// A cause holds at some variable.
fn is_stuck(arrays: &Arrays, p: Position) -> bool
    requires { p.plays ≤ 32 }
    ensures { result ≡ stuck_to arrays.now p arrays.now.own }
{
    (0..arrays.own).any(|j| stuck_at(arrays, p, j))
}

// The first mask if b, else the second. A call and not an `if`: edits that swap what is chosen are then refused for the masks.
fn choose(b: bool, m: u16, w: u16) -> u16
    ensures { result ≡ cond b m w }
{
    if b { m } else { w }
}

// The open values of variable j; `closed` says whether a cause holds.
fn open_mask(arrays: &Arrays, closed: bool, p: Position, j: usize) -> u16
    requires { (p.plays ≤ 32) × (j < 32) }
    ensures { result ≡ open_at arrays.now p closed j }
{
    let m = arrays.domains[j];
    let own: u16 = single(value_at(&p.values, j));
    let going = arrays.going_with(&p.values, p.plays, m, j);
    let whole = contains(arrays.universal, j);
    let unplayed = choose(whole, m, going);
    let usable = choose(closed, 0, unplayed);
    choose(j < p.plays, own, usable)
}

// The open values of every variable at a position that fits.
fn open_all(arrays: &Arrays, p: Position) -> Opened
    requires { p.plays ≤ 32 }
    ensures { result ≡ open_all arrays.now p }
{
    let closed = is_stuck(arrays, p);
    let mut masks = [0; 32];
    let mut counts = [0; 32];
    for j in 0..arrays.own {
        let m = open_mask(arrays, closed, p, j);
        masks[j] = m;
        counts[j] = count_of(m) as u8;
    }
    Opened { masks, counts }
}

pub fn open_in(arrays: &Arrays, p: Position) -> Result<Opened, Reason>
    ensures { OpenIn arrays.now p result }
{
    fit_test(arrays.own, &arrays.domains, p)?;
    Ok(open_all(arrays, p))
}

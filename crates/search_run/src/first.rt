// The words of the first turn of a run, and what the turn leaves in them.
ghost use Rattle.std.specs.Prelude.{◌≡◌, ◌+◌, ◌≤◌, T, length};
ghost use Rattle.game.specs.Lists.{spread};
ghost use Rattle.solver_arrays.specs.Words.{list_in, leaf_in};
ghost use Rattle.position.specs.Position.{fits_in};
ghost use Rattle.search_run.specs.FirstTurn.{ZeroBelow, words_from, own_reasons, FirstWords};

use mask::single;
use position::{Position, narrowed_domains};
use solver_arrays::{Arrays, put_reason};

// Each of the d played variables is its own reason.
fn own_reasons(d: usize, w: &mut [u16])
    requires { (d ≤ 32) × (96 ≤ length w.old) }
    ensures { w.new ≡ own_reasons d w.old }
{
    for k in 0..d {
        put_reason(w, k, single(k));
    }
}

// The words of the first turn: the position's domains, and its reasons.
pub fn first_words(arrays: &Arrays, p: Position, w: &mut [u16])
    requires { (96 ≤ length w.old) × T (fits_in p arrays.now.n arrays.now.domains) × ZeroBelow 96 w.old }
    ensures { FirstWords p arrays.now.n arrays.now.domains w.old w.new }
{
    narrowed_domains(p, arrays.n, &arrays.domains, w);
    own_reasons(p.plays, w);
}

// The `count` words from `start` on, and zero behind them.
fn places(start: usize, count: usize, w: &[u16]) -> [u16; 32]
    requires { (count ≤ 32) × (start + count ≤ length w.now) }
    ensures { result ≡ spread (words_from start count w.now) }
{
    let mut out = [0u16; 32];
    out[..count].copy_from_slice(&w[start..start + count]);
    out
}

// The list that a turn left, and zero behind its n domains.
pub fn list_of(arrays: &Arrays, w: &[u16]) -> [u16; 32]
    requires { 128 ≤ length w.now }
    ensures { result ≡ spread (list_in arrays.now.n w.now) }
{
    places(0, arrays.n, w)
}

// The leaf of a turn, and zero behind its n values.
pub fn leaf_of(arrays: &Arrays, w: &[u16]) -> [u16; 32]
    requires { 128 ≤ length w.now }
    ensures { result ≡ spread (leaf_in arrays.now.n w.now) }
{
    places(96, arrays.n, w)
}

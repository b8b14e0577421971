// Rule 1 on the words of a turn: dead values are removed (`rule_arc_passes`), then the loss and its conflict set are read off what is
// left. It rests on `solver_arrays` too. `arc` is for `rule_entries` and `search_rules`.
#![tactic(auto)]

ghost use Rattle.std.specs.Prelude.{◌≡◌, ℕ, ◌<◌, ◌≤◌, T, length, is_err};
ghost use Rattle.mask.specs.Mask.{bit};
ghost use Rattle.mask.specs.Range.{first};
ghost use Rattle.mask.specs.Found.{found};
ghost use Rattle.solver_arrays.specs.Words.{conflict_of};
ghost use Rattle.rule_arc.specs.Loss.{emptied_in, bars_in, barrier, stop, loss, conflict};
ghost use Rattle.rule_arc.specs.ArcRule.{CalmBut, FullBut, ArcSteps};

use mask::{contains, everyone, members_of, within};
use rule_arc_passes::{remove_dead, supported_of};
use solver_arrays::{Arrays, Loss, reason};

// Whether x is existential and its domain empty.
#[tactic(auto, unfolding(crate::specs::Loss::emptied_in))]
fn is_emptied(universal: u32, w: &[u16], x: usize) -> bool
    requires { (x < 32) × (96 ≤ length w.now) }
    ensures { result ≡ emptied_in universal w.now x }
{
    !contains(universal, x) && w[x] == 0
}

// The lowest emptied variable. All emptied ones are in the mask touched.
fn lowest_emptied(arrays: &Arrays, touched: u32, w: &[u16]) -> Option<usize>
    requires { (96 ≤ length w.now)
        × ((x : ℕ) → x < arrays.now.n → T (emptied_in arrays.now.universal w.now x) → T (bit touched x)) }
    ensures { result ≡ found arrays.now.n (first arrays.now.n (emptied_in arrays.now.universal w.now)) }
{
    members_of(touched & everyone(arrays.n)).find(|x| is_emptied(arrays.universal, w, *x))
}

// Whether k with the mask v bars a value of the mask u of a universal x.
fn bars(arrays: &Arrays, x: usize, k: usize, u: u16, v: u16) -> bool
    requires { (x < 32) × (k < 32) }
    ensures { result ≡ bars_in arrays.now x k u v }
{
    if contains(arrays.universal, k) {
        !within(u, arrays.common(k, v, x))
    } else {
        x < k && supported_of(arrays, k, v, x, u) != u
    }
}

// The first variable of the mask m that bars a value of x.
fn first_bar(arrays: &Arrays, x: usize, m: u32, w: &[u16]) -> Option<usize>
    requires { (x < 32) × (96 ≤ length w.now) }
    ensures { result ≡ found 32 (barrier arrays.now w.now x m) }
{
    members_of(m).find(|k| bars(arrays, x, *k, w[x], w[*k]))
}

// The lowest universal variable that a neighbour in the mask touched bars a value of, and the first such neighbour.
fn lowest_stopped(arrays: &Arrays, touched: u32, w: &[u16]) -> Option<(usize, usize)>
    requires { 96 ≤ length w.now }
    ensures { result ≡ stop arrays.now touched w.now arrays.now.n }
{
    for x in members_of(arrays.universal & everyone(arrays.n)) {
        if let Some(k) = first_bar(arrays, x, arrays.near[x] & touched, w) {
            return Some((x, k));
        }
    }
    None
}

// The loss with its conflict set, of words without dead values in which no variable outside the mask touched bars a value.
fn loss_in(arrays: &Arrays, touched: u32, w: &[u16]) -> Result<(), Loss>
    requires { (96 ≤ length w.now)
        × ((x : ℕ) → x < arrays.now.n → T (emptied_in arrays.now.universal w.now x) → T (bit touched x)) }
    ensures { (is_err result ≡ loss arrays.now touched w.now arrays.now.n)
        × (conflict_of result ≡ conflict arrays.now touched w.now arrays.now.n) }
{
    if let Some(x) = lowest_emptied(arrays, touched, w) {
        return Err(Loss {
            conflict: reason(w, x),
        });
    }
    if let Some((x, k)) = lowest_stopped(arrays, touched, w) {
        return Err(Loss {
            conflict: reason(w, x) | reason(w, k),
        });
    }
    Ok(())
}

// Rule 1, where variables outside the mask `changed` have no effect on others: fine, or a loss with a set of variables that the game is
// lost because of.
pub fn arc(arrays: &Arrays, changed: u32, w: &mut [u16]) -> Result<(), Loss>
    requires { (96 ≤ length w.old)
        × CalmBut arrays.now.n changed arrays.now w.old × FullBut arrays.now.n changed w.old }
    ensures { ArcSteps arrays.now w.old w.new (is_err result) (conflict_of result) }
{
    let touched = remove_dead(arrays, changed, w);
    loss_in(arrays, touched, w)
}

// The conflict sets of a turn: what it starts with, and what it hands up.
ghost use Rattle.std.specs.Prelude.{◌≡◌, ◌≤◌, ◌<◌, length, get_or};
ghost use Rattle.game.specs.Search.{handed as handedUp};
ghost use Rattle.search_words.specs.TurnSets.{joined_reasons, Starts};

use mask::{everyone, members_of};
use solver_arrays::{Arrays, reason};

// Of the d played variables those in the conflict set, or all where rule 6 is not used.
pub fn handed(jump: bool, d: usize, conflict: u32) -> u32
    requires { d ≤ 32 }
    ensures { result ≡ handedUp jump d conflict }
{
    let played = everyone(d);
    if jump { conflict & played } else { played }
}

// The reasons of the neighbours of d.
pub fn near_reasons(arrays: &Arrays, d: usize, w: &[u16]) -> u32
    requires { (d < 32) × (96 ≤ length w.now) }
    ensures { result ≡ joined_reasons (get_or arrays.now.near d 0) w.now }
{
    members_of(arrays.near[d]).fold(0, |out, k| out | reason(w, k))
}

// What the conflict set of an existential turn starts with: the reason of d and, where its domain was narrowed, those of
// its neighbours.
pub fn start_set(arrays: &Arrays, d: usize, narrowed: bool, w: &[u16]) -> u32
    requires { (d < 32) × (96 ≤ length w.now) }
    ensures { Starts arrays.now.n arrays.now d narrowed w.now result }
{
    let own = reason(w, d);
    if narrowed {
        own | near_reasons(arrays, d, w)
    } else {
        own
    }
}

// Words of a turn cleared, handed down to the turn below, and taken up from it.
ghost use Rattle.std.specs.Prelude.{◌≡◌, ◌≤◌, ◌<◌, length};
ghost use Rattle.search_words.specs.TurnRoom.{zeroed, handed_down, leaf_taken};

use mask::single;
use solver_arrays::put_reason;

// The words from `start` on and below `end` become zero.
pub fn zero_words(start: usize, end: usize, room: &mut [u16])
    requires { (start ≤ end) × (end ≤ length room.old) }
    ensures { room.new ≡ zeroed start end room.old }
{
    room[start..end].fill(0);
}

// Domains and reasons of the turn below become zero.
pub fn clear_below(room: &mut [u16])
    requires { 224 ≤ length room.old }
    ensures { room.new ≡ zeroed 128 224 room.old }
{
    zero_words(128, 224, room);
}

// The turn below gets the domains and reasons, with value a of variable d played.
pub fn hand_down(d: usize, a: usize, room: &mut [u16])
    requires { (256 ≤ length room.old) × (d < 32) × (a < 16) }
    ensures { room.new ≡ handed_down d a room.old }
{
    let (own, below) = room.split_at_mut(128);
    below[0..96].copy_from_slice(&own[0..96]);
    below[d] = single(a);
    put_reason(below, d, single(d));
}

// The leaf of the turn below comes up.
pub fn take_leaf(room: &mut [u16])
    requires { 256 ≤ length room.old }
    ensures { room.new ≡ leaf_taken room.old }
{
    let (own, below) = room.split_at_mut(128);
    own[96..].copy_from_slice(&below[96..128]);
    below[96..128].fill(0);
}

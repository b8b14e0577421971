// The winning values of a position's next variable, each searched by itself.
ghost use Rattle.std.specs.Prelude.{◌≡◌, ◌<◌, T, get_or};
ghost use Rattle.mask.specs.Mask.{bit};
ghost use Rattle.search_words.specs.TurnRoom.{zeroed};
ghost use Rattle.search_run.specs.Run.{room_words};
ghost use Rattle.marking.specs.Marks.{Asked, WinsWith, Wins};

use crate::Marks;
use mask::{members_of, single};
use position::pushed;
use search_run::{Start, run};
use solver_arrays::Arrays;

// Whether value a of the next variable wins when played.
fn wins_with(arrays: &Arrays, s: Start, a: usize, room: &mut [u16]) -> bool
    requires { Asked s arrays.now room.old × (a < 16)
        × T (bit (get_or arrays.now.domains s.position.plays 0) a) }
    ensures { WinsWith arrays.now s.set.bits s.position a result
        × (room.new ≡ zeroed 0 (room_words arrays.now.n) room.old) }
{
    let then = Start {
        position: pushed(s.position, a as u8),
        ..s
    };
    run(arrays, then, room).outcome.is_won()
}

// The values of the next variable that win, and its domain.
pub fn winning_values(arrays: &Arrays, s: Start, room: &mut [u16]) -> Marks
    requires { Asked s arrays.now room.old }
    ensures { Wins arrays.now s.set.bits s.position
        result.winning result.domain
        × (room.new ≡ zeroed 0 (room_words arrays.now.n) room.old) }
{
    let m = arrays.domains[s.position.plays];
    let mut won: u16 = 0;
    for a in members_of(m) {
        if wins_with(arrays, s, a, room) {
            won |= single::<u16>(a);
        }
    }
    Marks {
        winning: won,
        domain: m,
    }
}

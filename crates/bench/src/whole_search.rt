// Judging as a C function, for bench/search: 1 won, 0 lost, else refused.
ghost use Rattle.std.specs.Prelude.{◌≡◌, [], length};
ghost use Rattle.position.specs.Position.{shown};
ghost use Rattle.judging.specs.Judging.{judge_told, judge_left};
ghost use Rattle.bench.specs.Number.{as_number};

use crate::number::number;
use judging::judge;
use position::fresh;

// The fresh position.
#[unsafe(no_mangle)]
pub extern "C" fn bench_judge(f: &[u8], set: usize, room: &mut [u16]) -> u64
    ensures value { result ≡ as_number 2 (judge_told f.now (shown 0 []) set (length room.old)) }
    ensures room_after { room.new ≡ judge_left f.now (shown 0 []) set room.old }
{
    number(judge(f, fresh(), set, room), 2)
}

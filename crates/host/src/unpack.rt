// A position from its numbers: how many plays, the lock depth, and 32 places packed into four numbers, eight bytes each, the lowest first.
ghost use Rattle.std.specs.Prelude.{◌≡◌, ◌<◌};
ghost use Rattle.host.specs.Unpack.{byte_of, unpack};

use position::Position;

// Byte k of a number, the lowest first.
fn byte_of(w: u64, k: usize) -> u8
    requires { k < 8 }
    ensures { result ≡ byte_of w k }
{
    ((w >> (8 * k)) % 256) as u8
}

// The position of these numbers.
pub fn unpacked(plays: u64, depth: u64, a: u64, b: u64, c: u64, d: u64) -> Position
    ensures { result ≡ unpack plays depth a b c d }
{
    let words = [a, b, c, d];
    let mut values = [0u8; 32];
    for k in 0..32 {
        values[k] = byte_of(words[k / 8], k % 8);
    }
    Position {
        plays: plays as usize,
        depth: depth as usize,
        values,
    }
}

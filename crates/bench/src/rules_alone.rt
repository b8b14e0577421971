// The five rules' entries as C functions, for bench/rules.
ghost use Rattle.std.specs.Prelude.{◌≡◌, get_or};
ghost use Rattle.file_reader.specs.Reading.{domains_of};
ghost use Rattle.rule_entries.specs.Alone.{arc_told, arc_left, forward_told, forward_left, ahead_told, pure_told, interchangeable_told};
ghost use Rattle.bench.specs.Number.{as_number};

use crate::number::number;
use rule_entries::{arc, forward_check, interchangeable, look_ahead, pure};
use solver_arrays::Arrays;
use ternary_decoder::decode_ordinary;

// Reading and decoding alone: the first domain.
#[unsafe(no_mangle)]
pub extern "C" fn bench_decode(f: &[u8]) -> u64
    ensures { result ≡ get_or (domains_of f.now) 0 0 }
{
    let mut arrays = Arrays::empty();
    match decode_ordinary(f, &mut arrays) {
        Ok(_) => arrays.domains[0] as u64,
        Err(_) => 0,
    }
}

#[unsafe(no_mangle)]
pub extern "C" fn bench_arc(f: &[u8], list: &mut [u16]) -> u64
    ensures value { result ≡ as_number 2 (arc_told f.now list.old) }
    ensures list_after { list.new ≡ arc_left f.now list.old }
{
    number(arc(f, list), 2)
}

#[unsafe(no_mangle)]
pub extern "C" fn bench_forward(f: &[u8], list: &mut [u16], x: usize, a: usize) -> u64
    ensures value { result ≡ as_number 2 (forward_told f.now list.old x a) }
    ensures list_after { list.new ≡ forward_left f.now list.old x a }
{
    number(forward_check(f, list, x, a), 2)
}

#[unsafe(no_mangle)]
pub extern "C" fn bench_look_ahead(f: &[u8], list: &[u16], x: usize) -> u64
    ensures { result ≡ as_number 2 (ahead_told f.now list.now x) }
{
    number(look_ahead(f, list, x), 2)
}

#[unsafe(no_mangle)]
pub extern "C" fn bench_pure(f: &[u8], list: &[u16], x: usize) -> u64
    ensures { result ≡ as_number 65536 (pure_told f.now list.now x) }
{
    number(pure(f, list, x), 65536)
}

#[unsafe(no_mangle)]
pub extern "C" fn bench_interchangeable(f: &[u8], list: &[u16], x: usize) -> u64
    ensures { result ≡ as_number 65536 (interchangeable_told f.now list.now x) }
{
    number(interchangeable(f, list, x), 65536)
}

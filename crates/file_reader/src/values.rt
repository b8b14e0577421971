// What the variables of a file say: domains and universal bits.
ghost use Rattle.std.specs.Prelude.{◌≡◌};
ghost use Rattle.file_reader.specs.Reading.{domains_to, universal_bits};

use file_layout::Variables;
use mask::single;

// The domains, and zero behind them.
pub fn domains(v: &Variables) -> [u16; 32]
    ensures { result ≡ domains_to v.now.file.now v.now.start v.now.n }
{
    let mut out = [0u16; 32];
    for k in 0..v.n {
        out[k] = v.domain(k);
    }
    out
}

// The universal variables as bits.
pub fn universal_bits(v: &Variables) -> u32
    ensures { result ≡ universal_bits v.now.file.now v.now.start v.now.n }
{
    let mut out: u32 = 0;
    for k in 0..v.n {
        if v.is_universal(k) {
            out |= single::<u32>(k);
        }
    }
    out
}

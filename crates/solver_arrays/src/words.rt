// The words of a turn, reasons among them: 32 bits each, in two words with the low one first. The values of a position.
ghost use Rattle.std.specs.Prelude.{◌≡◌, ◌%◌, ◌≤◌, ◌<◌, length};
ghost use Rattle.std.specs.Int.Bits.{bit_or};
ghost use Rattle.solver_arrays.specs.Words.{reason_in, put_reason};
ghost use Rattle.solver_arrays.specs.Going.{value_at};

// The words of a turn.
pub type Words = [u16; 128];

// A loss that the rules of a turn find, and a set of variables that it is lost because of.
#[derive(Clone, Copy)]
pub struct Loss {
    pub conflict: u32,
}

// The reason of variable i.
#[tactic(auto, unfolding(crate::specs::Words::reason_in))]
pub fn reason(w: &[u16], i: usize) -> u32
    requires { (96 ≤ length w.now) × (i < 32) }
    ensures { result ≡ reason_in w.now i }
{
    w[32 + 2 * i] as u32 + 65536 * w[33 + 2 * i] as u32
}

// r becomes the reason of variable i.
pub fn put_reason(w: &mut [u16], i: usize, r: u32)
    requires { (96 ≤ length w.old) × (i < 32) }
    ensures { w.new ≡ put_reason w.old i r }
{
    w[32 + 2 * i] = (r % 65536) as u16;
    w[33 + 2 * i] = (r / 65536) as u16;
}

// The reason of variable i takes r in.
pub fn add_reason(w: &mut [u16], i: usize, r: u32)
    requires { (96 ≤ length w.old) × (i < 32) }
    ensures { w.new ≡ put_reason w.old i (bit_or (reason_in w.old i) r) }
{
    let joined = reason(w, i) | r;
    put_reason(w, i, joined);
}

// The value at place i. One that was played is below 16, so the cut changes nothing.
#[tactic(auto, unfolding(crate::specs::Going::value_at))]
pub fn value_at(values: &[u8; 32], i: usize) -> usize
    requires { i < 32 }
    ensures { (result ≡ value_at values.now i) × (result < 16) }
{
    values[i] as usize % 16
}

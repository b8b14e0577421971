// Numbers at a place of the text.
ghost use Rattle.std.specs.Prelude.{◌≡◌, ◌+◌, ◌≤◌, ◌<◌, ◌^◌, get_or};
ghost use Rattle.formula.specs.Text.{number_at, after};

// A number, and the place behind it and the one byte that parts it from what follows.
#[derive(Clone, Copy)]
pub struct Number {
    pub value: usize,
    pub after: usize,
}

pub fn byte_at(t: &[u8], p: usize) -> u8
    ensures { result ≡ get_or t.now p 0 }
{
    t.get(p).copied().unwrap_or(0)
}

// A number of up to nine digits.
pub fn number_at(t: &[u8], p: usize) -> Number
    requires { p ≤ 2 ^ 61 }
    ensures value_value { (result.value ≡ number_at t.now p) × (result.after ≡ after t.now p) }
    ensures value_bound { (result.value < 10 ^ 9) × (result.after ≤ p + 10) }
{
    let mut value = 0;
    for k in 0..9 {
        let b = byte_at(t, p + k);
        if !b.is_ascii_digit() {
            return Number {
                value,
                after: p + k + 1,
            };
        }
        value = 10 * value + (b as usize - 48);
    }
    Number {
        value,
        after: p + 10,
    }
}

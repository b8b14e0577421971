// Texts put into a buffer piece by piece, decimal numbers among them, and the laws of what is stored. It rests on `mask`
// alone and is for the crates that form bytes. What lies behind the buffer's end is left out, so the same functions measure a
// text and write it.
#![tactic(auto)]

ghost use Rattle.std.specs.Prelude.{◌≡◌, ◌<◌, ◌^◌, length, [], ◌∷◌};
ghost use Rattle.buffer.specs.Decimal.{decimal, digit as Decimal·digit};

// A buffer, and the place behind what was put. The place goes on behind the buffer's end, up to the largest number. That both are
// numbers of 64 bits is a fact of the type, so that a text to which nothing is put need not be read.
#[derive(Drop)]
pub struct Text<'a> {
    out: &'a mut [u8],
    pub at: usize,
    pub ghost small: { length out.now < 2 ^ 64 },
    pub ghost within: { at < 2 ^ 64 },
}

impl<'a> Text<'a> {
    ghost use Rattle.buffer.specs.Put.{Put};

    // From the start of the buffer on.
    pub fn new(out: &'a mut [u8]) -> Self
        ensures place { result.at ≡ 0 }
        ensures buffer { result.out.now ≡ out.old }
        ensures same { result.out.ghost_name ≡ out.entry.ghost_name }
    {
        Text { out, at: 0 }
    }

    pub fn put_byte(&mut self, b: u8)
        ensures { Put self.old (b ∷ []) self.new }
    {
        if self.at < self.out.len() {
            self.out[self.at] = b;
        }
        self.at = self.at.saturating_add(1);
    }

    pub fn put(&mut self, text: &[u8])
        ensures { Put self.old text.now self.new }
    {
        for b in text {
            self.put_byte(*b);
        }
    }

    // In decimal: the digits of the tenth, then the last.
    pub fn put_number(&mut self, x: usize)
        ensures { Put self.old (decimal x) self.new }
    {
        if x > 9 {
            self.put_number(x / 10);
        }
        self.put_byte(digit(x % 10));
    }
}

// A digit in ASCII.
fn digit(d: usize) -> u8
    requires { d < 10 }
    ensures { result ≡ Decimal·digit d }
{
    b'0' + d as u8
}

// A mask as a word: 16, 32 or 64 bits, as a number of 64.
ghost use Rattle.std.specs.Prelude.{◌≡◌, ℕ, ◌<◌, ◌≤◌, ◌^◌};
ghost use Rattle.std.proofs.Common.{rules};
ghost use Rattle.mask.specs.Range.{first};
ghost use Rattle.mask.specs.Mask.{bit};

// A word whose bits are members. Its places are the numbers below the width.
pub trait Mask: Copy {
    ghost width: { ℕ };

    ghost number: { Self → ℕ };

    // The word as a number.
    fn wide(self) -> u64
        ensures value { result ≡ number self }
        ensures fits { number self < 2 ^ width };

    // The word of a number that fits.
    fn narrow(m: u64) -> Self
        requires { m < 2 ^ width }
        ensures { number result ≡ m };

    // The zeros below its lowest set bit, or the width where none is set.
    fn zeros(self) -> u32
        ensures { result ≡ first width (bit (number self)) };

    // Whether value k is in the word: by the word itself, since over its number decoding takes three times as long.
    fn holds(self, k: usize) -> bool
        requires { k < width }
        ensures { result ≡ bit (number self) k };

    // The word of value k alone.
    fn only(k: usize) -> Self
        requires { k < width }
        ensures { number result ≡ 2 ^ k };

    ghost at_most_wide: { width ≤ 64 };
}

impl Mask for u16 {
    ghost width = { 16 };

    ghost number = { λ m. m };

    fn wide(self) -> u64 {
        self as u64
    }

    fn narrow(m: u64) -> u16 {
        m as u16
    }

    fn zeros(self) -> u32 {
        u16::trailing_zeros(self)
    }

    fn holds(self, k: usize) -> bool {
        (self >> k) % 2 == 1
    }

    fn only(k: usize) -> u16 {
        1 << k
    }

    ghost at_most_wide = { Prim.search rules };
}

impl Mask for u32 {
    ghost width = { 32 };

    ghost number = { λ m. m };

    fn wide(self) -> u64 {
        self as u64
    }

    fn narrow(m: u64) -> u32 {
        m as u32
    }

    fn zeros(self) -> u32 {
        u32::trailing_zeros(self)
    }

    fn holds(self, k: usize) -> bool {
        (self >> k) % 2 == 1
    }

    fn only(k: usize) -> u32 {
        1 << k
    }

    ghost at_most_wide = { Prim.search rules };
}

impl Mask for u64 {
    ghost width = { 64 };

    ghost number = { λ m. m };

    fn wide(self) -> u64 {
        self
    }

    fn narrow(m: u64) -> u64 {
        m
    }

    fn zeros(self) -> u32 {
        u64::trailing_zeros(self)
    }

    fn holds(self, k: usize) -> bool {
        (self >> k) % 2 == 1
    }

    fn only(k: usize) -> u64 {
        1 << k
    }

    ghost at_most_wide = { Prim.search rules };
}

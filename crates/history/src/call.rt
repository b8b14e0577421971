// A call of a list, and the byte that stands for it.
ghost use Rattle.std.specs.Prelude.{◌≡◌};
ghost use Rattle.history.specs.Replay.{call_of, as_call};

#[derive(Clone, Copy)]
pub enum Call {
    Play(usize),
    TakeBack,
    Lock,
    Unlock(usize),
}

impl Call {
    // A byte 255 is a take-back, 254 a lock, 192 to 253 an unlock to that less 192, any other a play of that value.
    pub fn of(byte: u8) -> Call
        ensures { as_call result ≡ call_of byte }
    {
        match byte {
            255 => Call::TakeBack,
            254 => Call::Lock,
            192..=253 => Call::Unlock(byte as usize - 192),
            _ => Call::Play(byte as usize),
        }
    }
}

// The rule set that a C caller hands to the writer, as two numbers.
ghost use Rattle.std.specs.Prelude.{◌≡◌};
ghost use Rattle.host.specs.Handed.{byte_handed};

// None where `given` is 0. No byte holds a number above 255; 255 stands for it, which is no rule set either.
pub fn set_handed(given: u64, rules: u64) -> Option<u8>
    ensures { result ≡ byte_handed given rules }
{
    (given != 0).then_some(u8::try_from(rules).unwrap_or(255))
}

// A call's reply as one number.
ghost use Rattle.std.specs.Prelude.{◌≡◌, ℕ, ◌<◌, List, get_or};
ghost use Rattle.refusal.specs.Told.{refusal_told, told_by};
ghost use Rattle.rule_entries.specs.Alone.{loss_values, check_values, look_values, mask_values, name_values};
ghost use Rattle.bench.specs.Number.{as_number};

use refusal::Refusal;
use rule_entries::{Ahead, PureNames};

// What a finished reply says: the first of its values.
pub trait Value {
    ghost values: { Self → List ℕ };

    fn value(self) -> u64
        ensures { result ≡ get_or (values self) 0 0 };
}

impl Value for bool {
    ghost values = { loss_values };

    fn value(self) -> u64 {
        self as u64
    }
}

impl Value for Option<usize> {
    ghost values = { check_values };

    fn value(self) -> u64 {
        self.is_some() as u64
    }
}

impl Value for Option<Ahead> {
    ghost values = { look_values };

    fn value(self) -> u64 {
        self.is_some() as u64
    }
}

impl Value for u16 {
    ghost values = { mask_values };

    fn value(self) -> u64 {
        self as u64
    }
}

impl Value for PureNames {
    ghost values = { name_values };

    fn value(self) -> u64 {
        self.pure as u64
    }
}

// The value of a finished reply; k where the call is refused by number, and the next number where the file is.
#[tactic(auto, unfolding(crate::specs::Number::as_number))]
pub fn number<T: Value>(reply: Result<T, Refusal>, k: u64) -> u64
    requires { k < 65537 }
    ensures { result ≡ as_number k (told_by T.values refusal_told reply) }
{
    match reply {
        Ok(x) => x.value(),
        Err(Refusal::InCall(_)) => k,
        Err(Refusal::InFile(_)) => k + 1,
    }
}

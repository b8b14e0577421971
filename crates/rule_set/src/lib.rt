// Rule sets: which of the seven search rules a search uses, as the sum of their numbers (document 01, "The seven rules"). It rests on
// `mask` and `refusal`. `RuleSet` with its constants, `new`, `number` and `uses` is open to callers.
#![tactic(auto)]

ghost use Rattle.std.specs.Prelude.{◌≡◌, [], ◌∷◌};
ghost use Rattle.rule_set.specs.RuleSet.{plain_set, usual_set, full_set, is_rule_set, uses, rule_set_of, told};

use mask::contains;
use refusal::Reason;

// A rule set. Its number is behind the constructor and the constants: other crates make none of their own.
#[derive(Clone, Copy)]
pub struct RuleSet {
    bits: u8,
}

// Whether the number is a rule set. For the reader and the writer of files too.
pub fn is_rule_set(number: usize) -> bool
    ensures { result ≡ is_rule_set number }
{
    number <= 127
}

impl RuleSet {
    pub const PLAIN: RuleSet = RuleSet { bits: 0 };

    pub const USUAL: RuleSet = RuleSet { bits: 3 };

    pub const ALL: RuleSet = RuleSet { bits: 127 };

    // The rule set of a number; refused above 127.
    pub fn new(number: usize) -> Result<RuleSet, Reason>
        ensures { told result ≡ rule_set_of number }
    {
        if is_rule_set(number) {
            Ok(RuleSet { bits: number as u8 })
        } else {
            Err(Reason::Rules)
        }
    }

    // Its number.
    pub fn number(self) -> u8
        ensures { result ≡ self.bits }
    {
        self.bits
    }

    // Whether it uses the rule.
    pub fn uses(self, rule: usize) -> bool
        ensures { result ≡ uses self.bits rule }
    {
        if rule < 1 {
            return false;
        }
        if 8 < rule {
            return false;
        }
        contains(self.bits as u16, rule - 1)
    }

    // The numbers of the named sets. No crate calls it: its contract keeps definitions and constants from parting.
    pub fn named() -> [u8; 3]
        ensures { result ≡ plain_set ∷ usual_set ∷ full_set ∷ [] }
    {
        [RuleSet::PLAIN.bits, RuleSet::USUAL.bits, RuleSet::ALL.bits]
    }
}

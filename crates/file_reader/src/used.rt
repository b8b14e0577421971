// The rule set that is used.
ghost use Rattle.std.specs.Prelude.{◌≡◌};
ghost use Rattle.file_reader.specs.Used.{rules_used};

use rule_set::RuleSet;

// Its number: the file's, else USUAL. For the crates above.
pub fn rules_used(rules: Option<u8>) -> u8
    ensures { result ≡ rules_used rules }
{
    rules.unwrap_or(RuleSet::USUAL.number())
}

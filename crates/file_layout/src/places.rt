// What stands where: rule set, variables.
ghost use Rattle.std.specs.Prelude.{◌≡◌};
ghost use Rattle.file_layout.specs.Layout.{rules_of, variables_at};

use crate::file_record::FileRecord;

// The rule set, or none.
#[tactic(auto, unfolding(crate::specs::Layout::rules_of))]
pub fn rules_at(f: &[u8]) -> Option<u8>
    ensures { result ≡ rules_of f.now }
{
    let r = FileRecord { file: f, place: 5 };
    r.is_marked(b"RS").then_some(r.byte(2) as u8)
}

// Where the variables begin.
#[tactic(auto, unfolding(crate::specs::Layout::variables_at))]
pub fn variables_at(f: &[u8]) -> usize
    ensures { result ≡ variables_at f.now }
{
    let r = FileRecord { file: f, place: 5 };
    if r.is_marked(b"RS") { 8 } else { 5 }
}

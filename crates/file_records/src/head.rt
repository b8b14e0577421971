// The records QP and RS.
ghost use Rattle.std.specs.Prelude.{◌≡◌};
ghost use Rattle.file_records.specs.Records.{qp_test, rs_test};

use file_layout::{FileRecord, counts_fit};
use refusal::{Fault, Reason, needed};
use rule_set::is_rule_set;

pub fn qp_test(f: &[u8]) -> Result<(), Fault>
    ensures { result ≡ qp_test f.now }
{
    let r = FileRecord { file: f, place: 0 };
    r.opened(r.is_marked(b"QP"), 3)?;
    needed(
        counts_fit(r.byte(2), r.word(3) as usize),
        Reason::Count.at(0),
    )
}

pub fn rs_test(f: &[u8]) -> Result<(), Fault>
    ensures { result ≡ rs_test f.now }
{
    let r = FileRecord { file: f, place: 5 };
    if !r.is_marked(b"RS") {
        return Ok(());
    }
    r.opened(true, 1)?;
    needed(is_rule_set(r.byte(2)), Reason::Rules.at(5))
}

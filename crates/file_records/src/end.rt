// The record EN, behind which nothing stands.
ghost use Rattle.std.specs.Prelude.{◌≡◌};
ghost use Rattle.file_records.specs.Records.{en_test};

use file_layout::FileRecord;
use refusal::{Fault, Reason, needed};

pub fn en_test(r: &FileRecord) -> Result<(), Fault>
    ensures { result ≡ en_test r.now.file.now r.now.place }
{
    r.opened(r.is_marked(b"EN"), 0)?;
    let next = r.place + 2;
    needed(r.file.len() <= next, Reason::Tail.at(next))
}

// The records VE and VA.
ghost use Rattle.std.specs.Prelude.{◌≡◌, ◌≤◌, ◌||◌};
ghost use Rattle.file_layout.specs.Layout.{marked, VE, VA};
ghost use Rattle.file_records.specs.Records.{variable_test, variables_test};

use file_layout::FileRecord;
use refusal::{Fault, Reason, needed};

// Whether it has the mark of a variable.
fn marks_variable(r: &FileRecord) -> bool
    ensures { result ≡ (marked r.now.file.now r.now.place VE || marked r.now.file.now r.now.place VA) }
{
    r.is_marked(b"VE") || r.is_marked(b"VA")
}

fn variable_test(r: &FileRecord) -> Result<(), Fault>
    ensures { result ≡ variable_test r.now.file.now r.now.place }
{
    r.opened(marks_variable(r), 2)?;
    needed(r.word(2) != 0, Reason::Domain.at(r.place))
}

// The n from this place on.
pub fn variables_test(f: &[u8], start: usize, n: usize) -> Result<(), Fault>
    requires { (start ≤ 8) × (n ≤ 32) }
    ensures { result ≡ variables_test f.now start n }
{
    for k in 0..n {
        let r = FileRecord {
            file: f,
            place: start + 4 * k,
        };
        variable_test(&r)?;
    }
    Ok(())
}

// The records CT, which stand behind the variables.
ghost use Rattle.std.specs.Prelude.{◌≡◌, ◌≤◌};
ghost use Rattle.file_records.specs.Records.{constraint_test, constraints_test};

use file_layout::{FileRecord, Variables, constraint_fits, word_at};
use refusal::Fault;

// One of the same file, behind a constraint of the pair last.
fn constraint_test(v: &Variables, last: usize, r: &FileRecord) -> Result<(), Fault>
    requires { r.now.file.now ≡ v.now.file.now }
    ensures { result ≡ constraint_test v.now.file.now v.now.start v.now.n last r.now.place }
{
    r.opened(r.is_marked(b"CT"), 34)?;
    let i = r.byte(2);
    let j = r.byte(3);
    let p = r.place;
    let fits = constraint_fits(
        |x| v.domain(x),
        v.n,
        last,
        i,
        j,
        |a| word_at(r.file, p + 4 + 2 * a),
    );
    fits.map_err(|reason| reason.at(p))
}

// The m from place q on, in the file of these variables.
pub fn constraints_test(v: &Variables, q: usize, m: usize) -> Result<(), Fault>
    requires { (q ≤ 200) × (m ≤ 496) }
    ensures { result ≡ constraints_test v.now.file.now v.now.start v.now.n q m }
{
    let mut last = 0;
    for k in 0..m {
        let r = FileRecord {
            file: v.file,
            place: q + 36 * k,
        };
        constraint_test(v, last, &r)?;
        last = r.pair();
    }
    Ok(())
}

// The records TT, which stand behind the constraints.
ghost use Rattle.std.specs.Prelude.{◌≡◌, ◌≤◌, IfOk};
ghost use Rattle.file_layout.specs.Layout.{leading};
ghost use Rattle.file_records.specs.Records.{scope_at, ternary_test, ternaries_test};
ghost use Rattle.file_records.specs.Tested.{tested, TernariesOf};

use file_layout::{FileRecord, Variables, scope_of, ternary_fits};
use refusal::{Fault, Reason, needed};

// How many there are, and the place behind the last one.
#[derive(Clone, Copy)]
pub struct Ternaries {
    pub count: usize,
    pub end: usize,
}

// Record k of the same file, behind a record of the three variables last.
fn ternary_test(v: &Variables, last: usize, k: usize, r: &FileRecord) -> Result<(), Fault>
    requires file { r.now.file.now ≡ v.now.file.now }
    requires few { k ≤ 32 }
    ensures { result ≡ ternary_test v.now.file.now v.now.start v.now.n last k r.now.place }
{
    let p = r.place;
    let body = r.opened(true, r.body());
    let many = needed(v.n + k + 1 <= 32, Reason::Many.at(p));
    let fits = ternary_fits(|x| v.domain(x), v.n, last, |x| r.number(x) as u16);
    let triple = needed(fits, Reason::Triple.at(p));
    // `and`, so that an edit that exchanges the tests is refused for the fact.
    body.and(many).and(triple)
}

// Its three variables as one number.
#[tactic(auto, unfolding(crate::specs::Records::scope_at))]
fn scope(r: &FileRecord) -> usize
    ensures { result ≡ scope_at r.now.file.now r.now.place }
{
    scope_of(r.number(0), r.number(1), r.number(2))
}

// Those in a row from q on.
pub fn ternaries_test(v: &Variables, q: usize) -> Result<Ternaries, Fault>
    requires { q ≤ 17992 }
    ensures verdict { tested result ≡ ternaries_test v.now.file.now v.now.start v.now.n q (leading v.now.file.now q 33) }
    ensures shows { IfOk result (TernariesOf v.now.file.now q) }
{
    let mut end = q;
    let mut last = 0;
    for count in 0..33 {
        let r = FileRecord {
            file: v.file,
            place: end,
        };
        if !r.is_marked(b"TT") {
            return Ok(Ternaries { count, end });
        }
        ternary_test(v, last, count, &r)?;
        last = scope(&r);
        end += 2 + r.body();
    }
    Ok(Ternaries { count: 33, end })
}

// The whole file: its records one behind another.
ghost use Rattle.std.specs.Prelude.{◌≡◌, IfOk};
ghost use Rattle.refusal.specs.Chain.{Fine};
ghost use Rattle.file_records.specs.Records.{qp_test, rest_test, verdict_of};
ghost use Rattle.file_records.specs.Tested.{tested};
ghost use Rattle.file_reader.specs.Parts.{PartsOf};

use crate::parts::Parts;
use file_layout::{FileRecord, Variables, byte_at, variables_at, word_at};
use file_records::{constraints_test, en_test, qp_test, rs_test, ternaries_test, variables_test};
use refusal::Fault;

// The records behind a QP that is fine, but for RS.
fn rest_test<'a>(f: &'a [u8]) -> Result<Parts<'a>, Fault>
    requires { qp_test f.now ≡ Fine }
    ensures verdict { tested result ≡ rest_test f.now }
    ensures shows { IfOk result (PartsOf f.now) }
{
    let start = variables_at(f);
    let n = byte_at(f, 2);
    variables_test(f, start, n)?;
    let variables = Variables { file: f, start, n };
    let m = word_at(f, 3) as usize;
    let q = variables.end();
    constraints_test(&variables, q, m)?;
    let ternaries = ternaries_test(&variables, q + 36 * m)?;
    let end = FileRecord {
        file: f,
        place: ternaries.end,
    };
    en_test(&end)?;
    Ok(Parts {
        variables,
        ternaries,
    })
}

// The parts of an accepted file, and else why it is refused and where. For file_lookup too.
pub fn parts_of<'a>(f: &'a [u8]) -> Result<Parts<'a>, Fault>
    ensures verdict { tested result ≡ verdict_of f.now }
    ensures shows { IfOk result (PartsOf f.now) }
{
    qp_test(f)?;
    let rules = rs_test(f);
    let rest = rest_test(f);
    // The rest as a test alone, so that an edit that exchanges the two is refused for the fact.
    let tested = rest.map(|_| ());
    rules.and(tested)?;
    rest
}

// The writer of problem files (document 01, "The job file"). It is handed numbers and no file, makes all its tests before it writes, and
// writes at the front of the caller's buffer. It rests on `file_bytes` and `file_layout`. `write` is open to callers.
#![tactic(auto)]

ghost use Rattle.std.specs.Prelude.{◌≡◌, length};
ghost use Rattle.file_bytes.specs.Bytes.{handed};
ghost use Rattle.file_writer.specs.Writing.{told, write_told, write_buffer};

mod tests;

use file_bytes::{Numbers, count_records};
use file_layout::counts_fit;
use refusal::{Reason, needed};
use tests::{lists_fit, rest_test};

// Writes the file of these numbers at the front of buf: n domains, 18 numbers a constraint (i, j, its rows), and the numbers of the three-way
// constraints one behind another (i, j, k, count, triples). Replies its length.
pub fn write(
    buf: &mut [u8],
    n: usize,
    m: usize,
    rules: Option<u8>,
    universal: u64,
    domains: &[u16],
    constraints: &[u16],
    ternaries: &[u16],
) -> Result<usize, Reason>
    ensures result_value { told result ≡ write_told (handed n m rules universal domains.now constraints.now ternaries.now)
        (length buf.old) }
    ensures buf_after { buf.new ≡ write_buffer (handed n m rules universal domains.now constraints.now ternaries.now)
        buf.old }
{
    needed(counts_fit(n, m), Reason::Count)?;
    needed(
        lists_fit(n, m, domains.len(), constraints.len()),
        Reason::Lent,
    )?;
    let t = count_records(ternaries).ok_or(Reason::Lent)?;
    let x = Numbers {
        n,
        m,
        rules,
        universal,
        t,
    };
    rest_test(x, domains, constraints, ternaries, buf.len())?;
    x.put(buf, domains, constraints, ternaries);
    Ok(x.length(ternaries.len()))
}

// A problem file as the text of a quantified boolean formula (QDIMACS), and that text judged (document 02, card 1). It rests on
// `ternary_decoder`, `formula_text` and `formula_judge`. `write_formula` and `judge_formula` are open to callers.
#![tactic(auto)]

ghost use Rattle.std.specs.Prelude.{◌≡◌, length};
ghost use Rattle.formula_entries.specs.Told.{told, formula_told, formula_left, Writes, told_judged, judge_formula_told};

use formula_judge::judge_text;
use formula_text::{measure, put_formula};
use refusal::{Reason, Refusal, needed};
use solver_arrays::Arrays;
use ternary_decoder::decode_ordinary;

// Whether the formula is won, and the length of its text.
#[derive(Clone, Copy, Default)]
pub struct JudgedFormula {
    pub won: bool,
    pub length: usize,
}

// Writes the text of the formula of the problem that the arrays state; 12.
fn write_in(arrays: &Arrays, buf: &mut [u8]) -> Result<usize, Reason>
    ensures { Writes arrays.now buf.old buf.new result }
{
    let size = measure(arrays);
    needed(size.length <= buf.len(), Reason::Room)?;
    put_formula(buf, arrays, size.clauses);
    Ok(size.length)
}

// Writes the text of the problem's formula at the front of buf, and tells its length.
pub fn write_formula(f: &[u8], buf: &mut [u8]) -> Result<usize, Refusal>
    ensures result_value { told result ≡ formula_told f.now (length buf.old) }
    ensures buf_after { buf.new ≡ formula_left f.now buf.old }
{
    let mut arrays = Arrays::empty();
    decode_ordinary(f, &mut arrays)?;
    Ok(write_in(&arrays, buf)?)
}

// Writes it and judges the text that stands there.
pub fn judge_formula(f: &[u8], buf: &mut [u8]) -> Result<JudgedFormula, Refusal>
    ensures result_value { told_judged result ≡ judge_formula_told f.now (length buf.old) }
    ensures buf_after { buf.new ≡ formula_left f.now buf.old }
{
    let length = write_formula(f, buf)?;
    let won = judge_text(&buf[..length]);
    Ok(JudgedFormula { won, length })
}

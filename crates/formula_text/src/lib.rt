// The text of a problem's formula, put into a buffer as far as it reaches (document 02, card 1). It works on the decoded arrays. It rests
// on `formula_clauses`, `formula_words`, `formula_theory`, `solver_arrays` and `buffer`. `measure` and `put_formula` are for
// `formula_entries`.
#![tactic(auto)]

ghost use Rattle.std.specs.Prelude.{◌≡◌};
ghost use Rattle.buffer.specs.Put.{Put};
ghost use Rattle.formula.specs.Text.{header_text};
ghost use Rattle.formula_text.specs.Body.{booleans_in, Bodied};
ghost use Rattle.formula_text.specs.Written.{Measures, Prints};

mod closing;
mod prefix;

use buffer::Text;
use closing::put_closing;
use formula_clauses::Clauses;
use prefix::{all_booleans, closes, put_prefix};
use solver_arrays::Arrays;

// How many booleans the prefix has.
fn booleans(arrays: &Arrays) -> usize
    ensures { result ≡ booleans_in arrays.now }
{
    all_booleans(arrays) + usize::from(closes(arrays))
}

// The first line: how many booleans and clauses there are.
fn put_header(t: &mut Text, booleans: usize, clauses: usize)
    ensures { Put t.old (header_text booleans clauses) t.new }
{
    t.put(b"p cnf ");
    t.put_number(booleans);
    t.put(b" ");
    t.put_number(clauses);
    t.put(b"\n");
}

// All other lines; replies how many clauses they have.
fn put_body(t: &mut Text, arrays: &Arrays) -> usize
    ensures { Bodied arrays.now t.old t.new result }
{
    put_prefix(t, arrays);
    let mut s = Clauses { text: t, count: 0 };
    s.put_existentials(arrays);
    s.put_constraints(arrays);
    put_closing(&mut s, arrays);
    s.count
}

// How long a text is, and how many clauses it has.
#[derive(Clone, Copy)]
pub struct Size {
    pub length: usize,
    pub clauses: usize,
}

// The size of the text: its lines put into a buffer that holds none of them.
pub fn measure(arrays: &Arrays) -> Size
    ensures { Measures arrays.now result }
{
    let mut t = Text::new(&mut []);
    let clauses = put_body(&mut t, arrays);
    put_header(&mut t, booleans(arrays), clauses);
    Size {
        length: t.at,
        clauses,
    }
}

// Puts the text, with this number of clauses, at the front of the buffer.
pub fn put_formula(out: &mut [u8], arrays: &Arrays, clauses: usize)
    ensures { Prints arrays.now clauses out.old out.new }
{
    let mut t = Text::new(out);
    put_header(&mut t, booleans(arrays), clauses);
    put_body(&mut t, arrays);
}

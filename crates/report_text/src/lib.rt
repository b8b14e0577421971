// What the judging program prints, formed in a buffer (document 01, "G1 in hex"). It rests on `buffer` and `refusal`. `render_reply` is
// for `reporting`, `render_refusal` for `standard_output` too, `put_line` for `group_text`. The first two alone require that the text fits:
// proofs/TextLaws.antt says how long it is at most.
#![tactic(auto)]

ghost use Rattle.std.specs.Prelude.{◌≡◌, ◌++◌, ◌≤◌, length, drop};
ghost use Rattle.report_text.specs.Text.{text_of, fault_text};

mod lines;

use buffer::Text;
pub use lines::put_line;
use lines::{put_answer, put_head, put_next, put_options};
use refusal::Fault;

// What is printed of an accepted file: its variables and constraints, the rule set used, the verdict, the next variable and whether it is
// universal, that variable's domain and its winning values.
#[derive(Clone, Copy)]
pub struct Report {
    pub n: usize,
    pub m: usize,
    pub set: usize,
    pub won: bool,
    pub next: usize,
    pub universal: bool,
    pub domain: u16,
    pub winning: u16,
}

// The text for an accepted file; replies its length.
pub fn render_reply(report: Report, out: &mut [u8]) -> usize
    requires { length (text_of report) ≤ length out.old }
    ensures value { result ≡ length (text_of report) }
    ensures out_after { out.new ≡ text_of report ++ drop (length (text_of report)) out.old }
{
    let mut t = Text::new(out);
    put_head(&mut t, report.n, report.m, report.set);
    put_answer(&mut t, report.won);
    put_next(&mut t, report.next, report.universal);
    put_options(&mut t, report.domain, report.winning);
    t.at
}

// The line for a refused file; replies its length.
pub fn render_refusal(fault: Fault, out: &mut [u8]) -> usize
    requires { length (fault_text fault) ≤ length out.old }
    ensures value { result ≡ length (fault_text fault) }
    ensures out_after { out.new ≡ fault_text fault ++ drop (length (fault_text fault)) out.old }
{
    let mut t = Text::new(out);
    t.put(b"refused ");
    t.put_number(u8::from(fault.reason) as usize);
    t.put(b" at ");
    t.put_number(fault.place);
    t.put(b"\n");
    t.at
}

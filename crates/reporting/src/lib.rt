// What the judging program prints of the bytes of a file: document 01's lines, or the one line of a refusal. The room of the searches is
// held here. It rests on `file_reader`, `judging`, `marking` and `report_text`. `report_file` is for the program `judge`.
#![tactic(auto)]

ghost use Rattle.std.specs.Prelude.{◌≡◌, ◌++◌, ◌≤◌, length, drop};
ghost use Rattle.mask.specs.Mask.{bit};
ghost use Rattle.file_reader.specs.Used.{rules_used as Used·rules_used};
ghost use Rattle.reporting.specs.Reporting.{report_of, ReportsAccepted};

mod opening;

use file_reader::{Head, read, rules_used};
use mask::contains;
use opening::{first_marks, is_won};
use report_text::{Report, render_refusal, render_reply};

// The text for an accepted file, by its reading's numbers.
fn report_accepted(f: &[u8], head: Head, out: &mut [u8; 1024]) -> usize
    ensures upper_bound { result ≤ 1024 }
    ensures reports_accepted { ReportsAccepted f.now head.n head.m (Used·rules_used head.rules) (bit head.universal 0) out.old result
        out.new }
{
    let set = rules_used(head.rules) as usize;
    let won = is_won(f, set);
    let k = first_marks(f, set);
    let universal = contains(head.universal, 0);
    let report = Report {
        n: head.n as usize,
        m: head.m as usize,
        set,
        won,
        next: 0,
        universal,
        domain: k.domain,
        winning: k.winning,
    };
    render_reply(report, out)
}

// The text for any bytes, at the start of the buffer; replies its length.
pub fn report_file(f: &[u8], out: &mut [u8; 1024]) -> usize
    ensures upper_bound { result ≤ 1024 }
    ensures value { result ≡ length (report_of f.now) }
    ensures out_after { out.new ≡ report_of f.now ++ drop (length (report_of f.now)) out.old }
{
    match read(f) {
        Ok(r) => report_accepted(f, r.head, out),
        Err(fault) => render_refusal(fault, out),
    }
}

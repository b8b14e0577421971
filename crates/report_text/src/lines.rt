// The lines of the text. What lies behind the buffer's end is left out.
ghost use Rattle.std.specs.Prelude.{cond};
ghost use Rattle.buffer.specs.Put.{Put};
ghost use Rattle.report_text.specs.Text.{number_line, answer_line, next_line, option_line, options_text, head_text};

use buffer::Text;
use mask::{contains, members_of};

// A line of a label and a number.
pub fn put_line(t: &mut Text, label: &[u8], x: usize)
    ensures { Put t.old (number_line label.now x) t.new }
{
    t.put(label);
    t.put_number(x);
    t.put(b"\n");
}

pub fn put_head(t: &mut Text, n: usize, m: usize, set: usize)
    ensures { Put t.old (head_text n m set) t.new }
{
    put_line(t, b"choices ", n);
    put_line(t, b"tables ", m);
    put_line(t, b"rules ", set);
}

// One of two words.
fn put_word(t: &mut Text, b: bool, yes: &[u8], no: &[u8])
    ensures { Put t.old (cond b yes.now no.now) t.new }
{
    t.put(if b { yes } else { no });
}

pub fn put_answer(t: &mut Text, won: bool)
    ensures { Put t.old (answer_line won) t.new }
{
    t.put(b"answer ");
    put_word(t, won, b"yes", b"no");
    t.put(b"\n");
}

pub fn put_next(t: &mut Text, next: usize, universal: bool)
    ensures { Put t.old (next_line next universal) t.new }
{
    t.put(b"next ");
    t.put_number(next);
    t.put(b" ");
    put_word(t, universal, b"day", b"shift");
    t.put(b"\n");
}

fn put_option_line(t: &mut Text, a: usize, winning: bool)
    ensures { Put t.old (option_line a winning) t.new }
{
    t.put(b"option ");
    t.put_number(a);
    t.put(b" ");
    put_word(t, winning, b"good", b"bad");
    t.put(b"\n");
}

// The lines of the values of a domain, ascending.
pub fn put_options(t: &mut Text, domain: u16, winning: u16)
    ensures { Put t.old (options_text domain winning 16) t.new }
{
    for a in members_of(domain) {
        put_option_line(t, a, contains(winning, a));
    }
}

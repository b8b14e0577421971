// What the program `groups` prints, put into a buffer as far as it reaches (document 02, card 4). It rests on `buffer` and `report_text`.
// `render_groups` is for `groups`.
#![tactic(auto)]

ghost use Rattle.std.specs.Prelude.{◌≡◌, ◌≤◌, ◌<◌, min, length};
ghost use Rattle.buffer.specs.Stored.{stored};
ghost use Rattle.buffer.specs.Put.{largest, Put};
ghost use Rattle.group_text.specs.Text.{member_text, group_line, groups_text};

use buffer::Text;
use group_labels::Groups;
use report_text::put_line;

// A blank and variable i, if it is in group g.
fn put_member(t: &mut Text, groups: &Groups, g: usize, i: usize)
    requires { i < 32 }
    ensures { Put t.old (member_text groups.now.group g i) t.new }
{
    if groups.group[i] as usize == g {
        t.put(b" ");
        t.put_number(i);
    }
}

// The line of group g among n variables.
fn put_group(t: &mut Text, groups: &Groups, n: usize, g: usize)
    requires { n ≤ 32 }
    ensures { Put t.old (group_line groups.now.group n g) t.new }
{
    t.put(b"group ");
    t.put_number(g);
    t.put(b" choices");
    for i in 0..n {
        put_member(t, groups, g, i);
    }
    t.put(b"\n");
}

// The text of the groups of n variables, at the front of out; replies its length.
pub fn render_groups(n: usize, groups: &Groups, out: &mut [u8]) -> usize
    requires { n ≤ 32 }
    ensures value { result ≡ min largest (length (groups_text n groups.now)) }
    ensures out_after { out.new ≡ stored out.old 0 (groups_text n groups.now) }
{
    let mut t = Text::new(out);
    put_line(&mut t, b"choices ", n);
    put_line(&mut t, b"groups ", groups.count);
    for g in 0..groups.count {
        put_group(&mut t, groups, n, g);
    }
    t.at
}

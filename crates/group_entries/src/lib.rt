// The groups of a problem file, and one group as a file of its own (document 02, card 4). It rests on `ternary_decoder`, `group_labels`,
// `group_arrays` and `problem_writer`. `groups` and `write_group` are open to callers.
#![tactic(auto)]

ghost use Rattle.std.specs.Prelude.{◌≡◌, true, length};
ghost use Rattle.solver_arrays.specs.Arrays.{Posed};
ghost use Rattle.file_writer.specs.Tests.{rules_fit};
ghost use Rattle.group_entries.specs.Told.{told_groups, groups_shown, groups_told, groups_listed, told, WritesGroup, write_group_told, write_group_left};

use file_reader::read;
use group_arrays::select;
use group_labels::{Groups, groups_in};
use problem_writer::write_problem;
use refusal::{Fault, Reason, Refusal, needed};
use solver_arrays::Arrays;
use ternary_decoder::decode_ordinary;

// The groups of the variables of the file's ordinary problem.
pub fn groups(f: &[u8]) -> Result<Groups, Fault>
    ensures told { told_groups result ≡ groups_told f.now }
    ensures shown { groups_shown result ≡ groups_listed f.now }
{
    let mut arrays = Arrays::empty();
    decode_ordinary(f, &mut arrays)?;
    Ok(groups_in(&arrays))
}

// Writes the file of group g of the problem that the arrays state, which are spent by it; 11, 12.
fn write_in(
    arrays: &mut Arrays,
    rules: Option<u8>,
    g: usize,
    buf: &mut [u8],
) -> Result<usize, Reason>
    requires posed { Posed arrays.old }
    requires set { rules_fit rules ≡ true }
    ensures { WritesGroup arrays.old rules g buf.old buf.new result }
{
    let groups = groups_in(arrays);
    needed(g < groups.count, Reason::Variable)?;
    select(arrays, &groups, g);
    write_problem(arrays, rules, buf)
}

// Writes group g at the front of buf as a problem file, its variables renumbered in order and with the file's rule set, if there is one, and
// tells its length.
pub fn write_group(f: &[u8], g: usize, buf: &mut [u8]) -> Result<usize, Refusal>
    ensures result_value { told result ≡ write_group_told f.now g (length buf.old) }
    ensures buf_after { buf.new ≡ write_group_left f.now g buf.old }
{
    let reading = read(f)?;
    let mut arrays = Arrays::empty();
    decode_ordinary(f, &mut arrays)?;
    Ok(write_in(&mut arrays, reading.head.rules, g, buf)?)
}

// The arrays of one group's problem: its variables by their new numbers, the rows as they are (document 02, card 4). It rests on
// `group_labels`, `group` and `solver_arrays`. `select` is for `group_entries`.
#![tactic(auto)]

ghost use Rattle.std.specs.Prelude.{◌≤◌, ◌<◌};
ghost use Rattle.solver_arrays.specs.Arrays.{Posed};
ghost use Rattle.group_labels.specs.Labels.{GroupsOf};
ghost use Rattle.group_arrays.specs.Members.{Holds};
ghost use Rattle.group_arrays.specs.Selected.{Selects};

mod members;
mod renumbered;

use group_labels::Groups;
use members::Members;
use renumbered::{domains, index, near, renumbered};
use solver_arrays::Arrays;

// The variables of group g among n.
fn group_members(groups: &Groups, n: usize, g: usize) -> Members
    requires { n ≤ 32 }
    ensures { Holds groups.now n g result }
{
    let mut size = 0;
    let mut old = [0; 32];
    for i in 0..n {
        if groups.group[i] as usize == g {
            old[size] = i as u8;
            size += 1;
        }
    }
    Members { size, old }
}

// The arrays become those of group g. They change in place: with a second set a call would not fit the stack that the C header states.
pub fn select(arrays: &mut Arrays, groups: &Groups, g: usize)
    requires posed { Posed arrays.old }
    requires grouped { GroupsOf arrays.old groups.now }
    requires exists { g < groups.now.count }
    ensures { Selects arrays.old groups.now g arrays.new }
{
    let m = group_members(groups, arrays.n, g);
    arrays.universal = renumbered(&m, arrays.universal);
    arrays.domains = domains(&m, arrays);
    arrays.near = near(&m, arrays);
    arrays.index = index(&m, arrays);
    arrays.own = m.size;
    arrays.n = m.size;
}

// The groups of the problem that the arrays state: its variables are labelled, and labels merged constraint by constraint (document 02,
// card 4). It rests on `group`, `problem_writer` and `solver_arrays`. `groups_in` is for `group_entries`.
#![tactic(auto)]

ghost use Rattle.std.specs.Prelude.{◌≡◌, ◌≤◌};
ghost use Rattle.mask.specs.Range.{count};
ghost use Rattle.solver_arrays.specs.Arrays.{Posed};
ghost use Rattle.group_labels.specs.Labels.{leads_in, GroupsOf};

mod merging;

use merging::labels;
use solver_arrays::Arrays;

// How many groups there are, and the group of each variable; zero behind the last.
#[derive(Clone, Copy)]
pub struct Groups {
    pub count: usize,
    pub group: [u8; 32],
}

// How many of the first k variables have their own label.
fn leads_below(labels: &[u8; 32], k: usize) -> usize
    requires { k ≤ 32 }
    ensures { result ≡ count k (leads_in labels.now) }
{
    let mut out = 0;
    for i in 0..k {
        if labels[i] as usize == i {
            out += 1;
        }
    }
    out
}

// The groups, numbered by their smallest variables. The label of variable i is at most i, so the bound cuts nothing.
pub fn groups_in(arrays: &Arrays) -> Groups
    requires { Posed arrays.now }
    ensures { GroupsOf arrays.now result }
{
    let labels = labels(arrays);
    let mut group = [0; 32];
    for i in 0..arrays.n {
        group[i] = leads_below(&labels, (labels[i] as usize).min(32)) as u8;
    }
    let count = leads_below(&labels, arrays.n);
    Groups { count, group }
}

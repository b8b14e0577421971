// What the arrays say of a group's variables, by their new numbers.
ghost use Rattle.std.specs.Prelude.{◌≡◌, ◌*◌, ◌+◌, get_or};
ghost use Rattle.mask.specs.Mask.{bit, mask_of};
ghost use Rattle.game.specs.Lists.{list_of, spread};
ghost use Rattle.solver_arrays.specs.Blocks.{InRange};
ghost use Rattle.group_arrays.specs.Members.{old_in};
ghost use Rattle.group_arrays.specs.Selected.{renumbered, index_in};

use crate::members::Members;
use mask::{contains, single};
use solver_arrays::Arrays;

// The variables of the mask.
pub fn renumbered(m: &Members, mask: u32) -> u32
    ensures { result ≡ renumbered m.now mask }
{
    let mut out: u32 = 0;
    for t in 0..m.size {
        if contains(mask, m.old(t)) {
            out |= single::<u32>(t);
        }
    }
    out
}

// Their domains.
pub fn domains(m: &Members, arrays: &Arrays) -> [u16; 32]
    ensures { result ≡ spread (list_of m.now.size (λ t. get_or arrays.now.domains (old_in m.now t) 0)) }
{
    let mut out = [0; 32];
    for t in 0..m.size {
        out[t] = arrays.domains[m.old(t)];
    }
    out
}

// Their neighbours.
pub fn near(m: &Members, arrays: &Arrays) -> [u32; 32]
    ensures { result ≡ spread (list_of m.now.size (λ t. renumbered m.now (get_or arrays.now.near (old_in m.now t) 0))) }
{
    let mut out = [0; 32];
    for t in 0..m.size {
        out[t] = renumbered(m, arrays.near[m.old(t)]);
    }
    out
}

// The blocks of rows of each two.
pub fn index(m: &Members, arrays: &Arrays) -> [u16; 1024]
    ensures value { result ≡ list_of 1024 (index_in m.now arrays.now) }
    ensures range { InRange result }
{
    let mut out = [0; 1024];
    for x in 0..1024 {
        out[x] = arrays.index[32 * m.old(x / 32) + m.old(x % 32)];
    }
    out
}

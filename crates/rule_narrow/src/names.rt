// Rule 4 with names: for each value that is not pure, the first variable and the first value of it that it does not go with (document 02,
// card 5).
ghost use Rattle.std.specs.Prelude.{◌<◌, ◌≤◌, length};
ghost use Rattle.rule_narrow.specs.Names.{FirstClash, NamesPure};

use crate::pure_values;
use mask::{difference, lowest, members_of};
use solver_arrays::Arrays;

// The pure values of a variable, and the other values of its domain; at the place of each of these the first variable and the first value of
// it that it does not go with. All other places are zero.
#[derive(Clone, Copy)]
pub struct PureNames {
    pub pure: u16,
    pub impure: u16,
    pub variables: [u8; 16],
    pub values: [u8; 16],
}

// A variable and a value of it.
#[derive(Clone, Copy)]
struct Clash {
    variable: u8,
    value: u8,
}

// The first variable in order of play, x left out, that has a value which value a of x does not go with, and the smallest such value; n and 16
// where a goes with all.
fn first_clash(arrays: &Arrays, x: usize, a: usize, w: &[u16]) -> Clash
    requires { (x < arrays.now.n) × (a < 16) × (96 ≤ length w.now) }
    ensures { FirstClash arrays.now x w.now a result }
{
    for j in 0..arrays.n {
        if j != x {
            let clashing = difference(w[j], arrays.row(x, a, j));
            if clashing != 0 {
                return Clash {
                    variable: j as u8,
                    value: lowest(clashing) as u8,
                };
            }
        }
    }
    Clash {
        variable: arrays.n as u8,
        value: 16,
    }
}

// Rule 4 at x, with the names.
pub fn pure_names(arrays: &Arrays, x: usize, w: &[u16]) -> PureNames
    requires { (x < arrays.now.n) × (96 ≤ length w.now) }
    ensures { NamesPure arrays.now x w.now result }
{
    let pure = pure_values(arrays, x, w);
    let impure = difference(w[x], pure);
    let mut variables = [0; 16];
    let mut values = [0; 16];
    for a in members_of(impure) {
        let clash = first_clash(arrays, x, a, w);
        variables[a] = clash.variable;
        values[a] = clash.value;
    }
    PureNames {
        pure,
        impure,
        variables,
        values,
    }
}

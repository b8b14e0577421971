// Arrays that state one problem: the same variables, neighbours and rows. Which block a pair has may differ.
use solver_arrays::Arrays;

// All rows of variable i.
fn same_rows(a: &Arrays, b: &Arrays, i: usize) -> bool {
    i < 32 && (0..a.n).all(|j| (0..16).all(|x| a.row(i, x, j) == b.row(i, x, j)))
}

// Variable i.
fn same_variable(a: &Arrays, b: &Arrays, i: usize) -> bool {
    let alike = i < 32 && a.domains[i] == b.domains[i] && a.near[i] == b.near[i];
    alike && same_rows(a, b, i)
}

// All variables.
pub fn state_alike(a: &Arrays, b: &Arrays) -> bool {
    let alike = a.n == b.n && a.universal == b.universal;
    alike && (0..a.n).all(|i| same_variable(a, b, i))
}

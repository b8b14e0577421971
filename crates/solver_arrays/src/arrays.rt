// The arrays of a problem: its variables, which of them are neighbours, and the rows of each two.
ghost use Rattle.std.specs.Prelude.{◌≤◌, ◌<◌};
ghost use Rattle.solver_arrays.specs.Blocks.{InRange};

use crate::value_at;
use mask::{members_above, members_of};

// Blocks of 16 rows: one of ones, and two for each of 496 constraints.
pub const ROWS: usize = 15888;

// A problem's n variables, of which the first `own` are to play; which are universal; their domains; the neighbours of each, as a mask; the
// block of rows of each two; the rows.
#[derive(Clone, Copy)]
pub struct Arrays {
    pub own: usize,
    pub n: usize,
    pub universal: u32,
    pub domains: [u16; 32],
    pub near: [u32; 32],
    pub index: [u16; 1024],
    pub rows: [u16; ROWS],
    pub ghost first: { own ≤ n },
    pub ghost most: { n ≤ 32 },
    pub ghost some: { 0 < n },
    pub ghost in_range: { InRange index },
}

impl Arrays {
    ghost use Rattle.std.specs.Prelude.{◌≡◌, get_or};
    ghost use Rattle.mask.specs.Mask.{above};
    ghost use Rattle.solver_arrays.specs.Arrays.{row_in, common_in, Empty};
    ghost use Rattle.solver_arrays.specs.Going.{going_with};

    // One variable without a value and not to play, and no constraint: what a file is decoded into.
    pub fn empty() -> Arrays
        ensures { Empty result }
    {
        Arrays {
            own: 0,
            n: 1,
            universal: 0,
            domains: [0; 32],
            near: [0; 32],
            index: [0; 1024],
            rows: [65535; ROWS],
        }
    }

    // The neighbours of x, as a mask.
    pub fn neighbours(&self, x: usize) -> u32
        requires { x < 32 }
        ensures { result ≡ get_or self.now.near x 0 }
    {
        self.near[x]
    }

    // Those above x.
    pub fn later_neighbours(&self, x: usize) -> u32
        requires { x < 32 }
        ensures { result ≡ above (get_or self.now.near x 0) x }
    {
        members_above(self.near[x], x)
    }

    // Row a of variable i towards j.
    #[tactic(auto, unfolding(crate::specs::Arrays::row_in))]
    pub fn row(&self, i: usize, a: usize, j: usize) -> u16
        requires { (i < 32) × (a < 16) × (j < 32) }
        ensures { result ≡ row_in self.now i a j }
    {
        let block = self.index[32 * i + j] as usize;
        self.rows[16 * block + a]
    }

    // The values of j that go with each value of the mask m of i.
    pub fn common(&self, i: usize, m: u16, j: usize) -> u16
        requires { (i < 32) × (j < 32) }
        ensures { result ≡ common_in self.now i m j }
    {
        let mut out = u16::MAX;
        for a in members_of(m) {
            out &= self.row(i, a, j);
        }
        out
    }

    // The values in m of variable j that go with each of the first k values played.
    #[tactic(auto, unfolding(crate::specs::Going::going_with))]
    pub fn going_with(&self, values: &[u8; 32], k: usize, m: u16, j: usize) -> u16
        requires { (k ≤ 32) × (j < 32) }
        ensures { result ≡ going_with self.now values.now k m j }
    {
        let mut out = m;
        for i in 0..k {
            out &= self.row(i, value_at(values, i), j);
        }
        out
    }
}

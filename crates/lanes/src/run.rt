// All steps of the lanes.
ghost use Rattle.lanes.specs.Lanes.{Runnable, Ran};

use crate::step::step;

// What the lanes have in the end: the value of each quotient, and what was read off with its coefficients.
#[derive(Clone, Copy)]
pub struct Lanes {
    pub values: [u16; 64],
    pub totals: [u32; 64],
}

// The first m coefficients of each quotient of f, in m lanes, read off the first m sums, the last one first.
pub fn run(m: usize, f: &[u16; 65], sums: &[u16], x: &[u16; 64], z: &[u16; 64]) -> Lanes
    requires { Runnable m f.now sums.now x.now z.now }
    ensures { Ran m f.now sums.now x.now result }
{
    let mut q = [0u16; 64];
    let mut values = [0u16; 64];
    let mut totals = [0u32; 64];
    for k in 0..m {
        step(
            m,
            f[k],
            sums[m - 1 - k],
            x,
            z,
            &mut q,
            &mut values,
            &mut totals,
        );
    }
    Lanes { values, totals }
}

// The discrepancies of a register at many symbols of a sequence.
ghost use Rattle.std.specs.Prelude.{◌*◌};
ghost use Rattle.settled.specs.Ahead.{Foreseeable, Ahead};

use discrepancy::padded::padded;
use reduction::taking::take_off;
use register_step::{Problem, State};

// The discrepancies at the last `count` symbols of sequence h, which stands backwards in its block: each over −2^16.
pub fn ahead(problem: Problem, state: &State, h: usize, count: usize) -> [u16; 144]
    requires { Foreseeable problem.f problem.moduli.now state.now.length state.now.taps h count }
    ensures { Ahead problem.entry.f.p state.now.length state.now.taps problem.entry.symbols.now (h * 144) count result }
{
    let mut cells = [0u16; 144];
    let end = padded(count);
    let at = h * 144;
    for i in 0..=state.length {
        take_off(
            problem.f,
            problem.moduli,
            &mut cells,
            0,
            u32::from(state.taps[i]),
            problem.symbols,
            at + i,
            end,
        );
    }
    cells
}

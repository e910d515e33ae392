// A step (n, h) of Algorithm 4 on what is kept of its state, one of many.
ghost use Rattle.std.specs.Prelude.{◌≡◌, get_or};
ghost use Rattle.discrepancy.specs.Discrepancies.{sequence_in};
ghost use Rattle.discrepancy.specs.Modulus.{WorkedOut, Moduli};
ghost use Rattle.register_step.specs.Held.{parts_of};
ghost use Rattle.register_step.specs.Parts.{Steppable, step_parts};

use crate::changing::change;
use crate::{Problem, State};
use discrepancy::due::due;
use discrepancy::sums::residue;

pub fn step(problem: Problem, n: usize, h: usize, state: &mut State)
    requires worked_out { WorkedOut problem.f }
    requires moduli { Moduli problem.f.p problem.moduli.now }
    requires steppable { Steppable problem.f.p problem.longest h (get_or problem.lengths.now h 0) n problem.symbols.now
        (parts_of state.old) }
    ensures { parts_of state.new
        ≡ step_parts problem.entry.f.p problem.entry.longest (sequence_in problem.entry.symbols.now h (get_or problem.entry.lengths.now h 0)) n h
        (parts_of state.old) }
{
    let sum = due(
        problem.f,
        problem.longest,
        state.length,
        &state.taps,
        problem.symbols,
        h,
        usize::from(problem.lengths[h]),
        n,
    );
    let d = residue(problem.f, sum);
    if d == 0 {
        return;
    }
    state.length = change(
        problem.f,
        problem.moduli,
        n,
        h,
        d,
        sum,
        state.length,
        &mut state.places,
        &mut state.sizes,
        &mut state.discs,
        &mut state.quotients,
        &mut state.taps,
        &mut state.saved,
    );
}

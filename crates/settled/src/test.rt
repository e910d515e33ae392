// The test of one sequence, and of all.
ghost use Rattle.std.specs.Prelude.{◌≡◌, ℕ, ◌≤◌, ◌<◌, get_or};
ghost use Rattle.settled.specs.Settled.{Testable, settled_in, settled};

use crate::ahead::ahead;
use register_step::{Problem, State};
use sequences::zeros::all_zero;

// Whether the register is settled in sequence h: of its last symbols, `left` of them, those are looked at that ask something of it.
fn is_settled_in(problem: Problem, state: &State, h: usize, left: usize) -> bool
    requires { Testable problem.f problem.moduli.now state.now.length state.now.taps h (get_or problem.lengths.now h 0) }
    ensures { result ≡ settled_in problem.entry.f.p state.now.length state.now.taps problem.entry.symbols.now h
        (get_or problem.entry.lengths.now h 0) left }
{
    let long = usize::from(problem.lengths[h]);
    let count = left.min(long.saturating_sub(state.length));
    let cells = ahead(problem, state, h, count);
    all_zero(&cells[..count])
}

// Whether it is settled in the first `count` sequences, with `left` rounds to come. Modulo 2 this is not asked.
pub fn is_settled(problem: Problem, state: &State, left: usize) -> bool
    requires { (problem.count ≤ 8) × ((h : ℕ) → h < problem.count →
        Testable problem.f problem.moduli.now state.now.length state.now.taps h (get_or problem.lengths.now h 0)) }
    ensures { result ≡ settled problem.entry.f.p state.now.length state.now.taps problem.entry.symbols.now problem.entry.lengths.now
        problem.entry.count left }
{
    for h in 0..problem.count {
        if !is_settled_in(problem, state, h, left) {
            return false;
        }
    }
    true
}

// The rounds of Algorithm 4: each round, and those that may change something.
#![tactic(auto)]

ghost use Rattle.std.specs.Prelude.{◌≡◌, ◌+◌, ◌≤◌, ◌<◌};
ghost use Rattle.rounds.specs.Posed.{Posed, RoundsMade};

use register_step::step::step;
use register_step::{Problem, State};
use settled::test::is_settled;

// Round n + 1: a step for each sequence.
fn round(problem: Problem, n: usize, state: &mut State)
    requires posed { Posed problem }
    requires n_lt_longest { n < problem.longest }
    requires made { RoundsMade problem n state.old }
    ensures { RoundsMade problem.entry (n + 1) state.new }
{
    for h in 0..problem.count {
        step(problem, n + 1, h, state);
    }
}

// The rounds from + 1 .. to.
fn advance(problem: Problem, from: usize, to: usize, state: &mut State)
    requires posed { Posed problem }
    requires from_le_to { (from ≤ to) × (to ≤ problem.longest) }
    requires made { RoundsMade problem from state.old }
    ensures { RoundsMade problem.entry to state.new }
{
    for n in from..to {
        round(problem, n, state);
    }
}

// All rounds, as long as they may change something. Where fewer than half as many taps as rounds were needed the register is likely settled, and is tested
// after 9 rounds and after 17; the rounds that are left are not made where it is.
fn until_settled(problem: Problem, state: &mut State)
    requires posed { Posed problem }
    requires fact { (problem.f.p ≡ 2 → ⊥) × (17 < problem.longest) }
    requires made { RoundsMade problem 0 state.old }
    ensures { RoundsMade problem.entry problem.entry.longest state.new }
{
    let mut n = 0;
    for to in [9, 17, problem.longest] {
        if 2 * state.length < n && is_settled(problem, state, problem.longest - n) {
            return;
        }
        advance(problem, n, to, state);
        n = to;
    }
}

// All rounds, as long as they may change something. Where there are few it does not pay to look whether the register is settled, and modulo 2 the test does not
// serve.
pub fn rounds(problem: Problem, state: &mut State)
    requires posed { Posed problem }
    requires made { RoundsMade problem 0 state.old }
    ensures { RoundsMade problem.entry problem.entry.longest state.new }
{
    if problem.longest < 24 || problem.f.p == 2 {
        advance(problem, 0, problem.longest, state);
        return;
    }
    until_settled(problem, state);
}

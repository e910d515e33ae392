// The tests of the input, in their order: refusals 1, 2, 3, 8 and 4.
ghost use Rattle.std.specs.Prelude.{◌≡◌, ◌≤◌, length, get_or};
ghost use Rattle.lists.specs.Total.{total};
ghost use Rattle.refusal.specs.Outcome.{outcome_of, outcome};
ghost use Rattle.register.specs.Sequences.{largest};
ghost use Rattle.sequences.specs.Tests.{is_counted, is_short, is_measured, is_below, tests};

use crate::every::every;
use refusal::{Refusal, require};

fn counted(n: usize) -> bool
    ensures { result ≡ is_counted n }
{
    (1..=8).contains(&n)
}

fn short(lengths: &[u16]) -> bool
    ensures { result ≡ is_short lengths.now }
{
    every(lengths, |n| n <= 128)
}

fn sum(lengths: &[u16]) -> usize
    requires { length lengths.now ≤ 8 }
    ensures { result ≡ total (length lengths.now) (λ h. get_or lengths.now h 0) }
{
    lengths.iter().map(|n| usize::from(*n)).sum()
}

// Lengths above 128 and lengths that do not add up are one refusal.
fn measured(lengths: &[u16], count: usize) -> bool
    requires { length lengths.now ≤ 8 }
    ensures { result ≡ is_measured lengths.now count }
{
    short(lengths) && sum(lengths) == count
}

pub fn longest(lengths: &[u16]) -> usize
    ensures { result ≡ largest lengths.now }
{
    let mut most = 0;
    for n in lengths {
        most = usize::max(most, usize::from(*n));
    }
    most
}

fn below(symbols: &[u16], p: u32) -> bool
    ensures { result ≡ is_below p symbols.now }
{
    every(symbols, |x| u32::from(x) < p)
}

// The refusal of the first test that fails.
#[tactic(auto, unfolding(crate::specs::Tests::tests))]
pub fn check(p: u32, lengths: &[u16], symbols: &[u16], room: usize) -> Result<(), Refusal>
    ensures { outcome_of result ≡ outcome (tests p lengths.now symbols.now room) }
{
    require(field::prime::is_modulus(p), Refusal::Modulus)?;
    require(counted(lengths.len()), Refusal::Count)?;
    require(measured(lengths, symbols.len()), Refusal::Lengths)?;
    require(longest(lengths) < room, Refusal::TapBuffer)?;
    require(below(symbols, p), Refusal::Symbol)
}

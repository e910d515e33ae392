// The search for roots of taps at the columns.
ghost use Rattle.std.specs.Prelude.{◌≡◌, ◌≤◌};
ghost use Rattle.refusal.specs.Outcome.{outcome_of, outcome};
ghost use Rattle.search.specs.Search.{sought, search_tests, answer_of, answer};

use crate::Sought;
use crate::blocks::try_block;
use columns::Columns;
use field257::powers::powers;
use refusal::{Refusal, require};
use shapes::shape::columns_in_range;
use shapes::symbols::all_below;

// For callers who know that there are no more than 256 columns. With one tap or none there is nothing to find.
pub fn sought_columns(columns: usize, taps: &[u16]) -> Sought
    requires { columns ≤ 256 }
    ensures { result ≡ sought columns taps.now }
{
    if taps.len() < 2 {
        return Sought {
            columns: columns::empty(),
            tried: 0,
        };
    }
    let powers = powers();
    let mut words = [0; 4];
    let mut left = taps.len() - 1;
    let mut tried = 0;
    // Kept as a while: how far it comes is what try_block answers.
    while left > 0 && tried < columns {
        let trial = try_block(&powers, taps, columns, tried, left, &mut words);
        left = trial.left;
        tried = trial.tried;
    }
    Sought {
        columns: Columns { words },
        tried,
    }
}

// The refusals of the search.
#[tactic(auto, unfolding(crate::specs::Search::search_tests))]
fn check(columns: usize, taps: &[u16]) -> Result<(), Refusal>
    ensures { outcome_of result ≡ outcome (search_tests columns taps.now) }
{
    require(columns_in_range(columns), Refusal::Columns)?;
    require(all_below(taps), Refusal::Symbol)
}

// For any taps and any number of columns.
pub fn search(columns: usize, taps: &[u16]) -> Result<Sought, Refusal>
    ensures { answer_of result ≡ answer columns taps.now }
{
    check(columns, taps)?;
    Ok(sought_columns(columns, taps))
}

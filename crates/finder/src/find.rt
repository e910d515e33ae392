// The finder: the shortest register of the sequences lent, or why the input is refused.
ghost use Rattle.std.specs.Prelude.{◌≡◌, length};
ghost use Rattle.refusal.specs.Outcome.{passed, outcome};
ghost use Rattle.sequences.specs.Tests.{tests};
ghost use Rattle.finder.specs.Finder.{Finds};

use crate::Register;
use discrepancy::worked_out::worked_out;
use ends::{alone, start};
use refusal::Refusal;
use register_step::{Problem, State};
use rounds::rounds;
use sequences::backwards::all_backwards;
use sequences::check::{check, longest};
use sequences::sort::by_length;
use sequences::zeros::all_zero;

// The rounds, and what they leave.
fn shortest(p: u32, lengths: &[u16], symbols: &[u16], taps: &mut [u16]) -> Register
    requires { outcome (tests p lengths.now symbols.now (length taps.old)) ≡ passed }
    ensures { Finds p lengths.now symbols.now taps.old taps.new (Ok result) }
{
    let f = worked_out(p);
    let moduli = [p as u16; 144];
    let count = lengths.len();
    let most = longest(lengths);
    let order = by_length(lengths, symbols);
    let mut backwards = [0u16; 1152];
    all_backwards(order, count, symbols, &mut backwards);
    let problem = Problem {
        f,
        moduli: &moduli,
        longest: most,
        symbols: &backwards,
        lengths: &order.lengths,
        count,
    };
    let mut state = State {
        length: 0,
        places: start(most, &order.lengths, count),
        sizes: [0; 8],
        discs: [1; 8],
        quotients: [f.unit as u16; 8],
        taps: [0; 144],
        saved: [0; 1152],
    };
    state.taps[0] = 1;
    rounds(problem, &mut state);
    let l = state.length;
    let e = l + 1;
    taps[..e].copy_from_slice(&state.taps[..e]);
    Register {
        length: l,
        alone: alone(most, &order.lengths, count, l, &state.places, &state.sizes),
    }
}

// The search itself, on input that no test refuses: for callers who know that of theirs. Where all symbols are 0, as for the check sums of a legal frame,
// no round finds anything to change.
pub fn synthesize(p: u32, lengths: &[u16], symbols: &[u16], taps: &mut [u16]) -> Register
    requires { outcome (tests p lengths.now symbols.now (length taps.old)) ≡ passed }
    ensures { Finds p lengths.now symbols.now taps.old taps.new (Ok result) }
{
    if all_zero(symbols) {
        taps[0] = 1;
        return Register {
            length: 0,
            alone: true,
        };
    }
    shortest(p, lengths, symbols, taps)
}

// For any input at all: the sequences of the given lengths stand one after the other in `symbols`, and the taps 0 to l go to the front of `taps`.
pub fn find(p: u32, lengths: &[u16], symbols: &[u16], taps: &mut [u16]) -> Result<Register, Refusal>
    ensures { Finds p lengths.now symbols.now taps.old taps.new result }
{
    check(p, lengths, symbols, taps.len())?;
    Ok(synthesize(p, lengths, symbols, taps))
}

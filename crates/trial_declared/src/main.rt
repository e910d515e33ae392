// Runs locate and repair with declared cells: at the edges of what is taken, on random frames against all legal frames, all sets of columns and elimination,
// and in random lists against a simple model of the job. Prints how often each answer occurred, and the first call that disagrees. Then the calls are held to
// four planted models that are wrong, and must disagree with each.
#![tactic(auto)]

mod call_lists;
mod drawn;
mod edges;
mod frames;
mod small;

use call_lists::WithCells;
use drawn::Size;
use lost::model::Planted;
use lost::tallies::Tallies;
use lost::{many_calls, tallies};
use plain::tally::print_end;
use std::io;

// Runs everything up to the first disagreement.
fn run(rt: &impl Print, state: &mut u64, counts: &mut Tallies) -> io::Result<bool> {
    if !edges::try_all(rt, counts)? {
        return Ok(false);
    }
    for (size, n) in [
        (Size::Tiny, 100),
        (Size::Small, 2000),
        (Size::Large, 40),
        (Size::Full, 20),
    ] {
        if !frames::random(rt, state, size, n, counts)? {
            return Ok(false);
        }
    }
    many_calls::random(&WithCells, rt, state, Planted::Right, 2000, counts)
}

fn report(rt: &impl Print, counts: &Tallies) -> io::Result<()> {
    println!(rt; "edges {}", counts.edges)?;
    print!(rt; "frames: damage in reach {}", counts.in_reach)?;
    println!(rt; ", past it {}", counts.past_reach)?;
    print!(rt; "lists of calls {}", counts.lists)?;
    println!(rt; ", shapes in them {}", counts.shaped)?;
    print!(rt; "located {}", counts.found)?;
    print!(rt; ", repaired in lists {}", counts.mended)?;
    counts.print_refusals(rt, &[21, 22, 23, 7, 31, 4, 24, 25, 34, 26])?;
    println!(rt; ", of repairs {}", counts.dead)
}

// Holds the calls to a planted model.
fn plant(
    rt: &impl Print,
    state: &mut u64,
    text: &[u8],
    planted: Planted,
    counts: &mut Tallies,
) -> io::Result<()> {
    rt.write_all(text)?;
    let agreed = many_calls::random(&WithCells, rt, state, planted, 300, counts)?;
    print_end(rt, agreed)
}

fn main(rt: HostRuntime) -> io::Result<()> {
    let mut state = 1u64;
    let mut counts = tallies::none();
    let rt = &rt;
    let agreed = run(rt, &mut state, &mut counts)?;
    report(rt, &counts)?;
    print_end(rt, agreed)?;
    let text = b"planted, rows not completed: ";
    plant(rt, &mut state, text, Planted::NotCompleted, &mut counts)?;
    let text = b"planted, cells kept: ";
    plant(rt, &mut state, text, Planted::CellsKept, &mut counts)?;
    let text = b"planted, exponent left out: ";
    plant(rt, &mut state, text, Planted::ExponentLeftOut, &mut counts)?;
    let text = b"planted, symbols received judged: ";
    plant(rt, &mut state, text, Planted::ReceivedJudged, &mut counts)
}

// Runs the calls on a job at the edges of what is taken and in random lists against a simple model of the job, prints how often each answer
// occurred, and the first call that disagrees. Then the calls are held to a planted model that is wrong, and must disagree with it.
#![tactic(auto)]

mod call_lists;
mod edges;

use call_lists::Usual;
use lost::model::Planted;
use lost::tallies::Tallies;
use lost::{many_calls, tallies};
use plain::tally::print_end;
use std::io;

// Runs everything up to the first disagreement.
fn run(rt: &impl Print, state: &mut u64, counts: &mut Tallies) -> io::Result<bool> {
    if !edges::try_all(rt, counts)? {
        return Ok(false);
    }
    many_calls::random(&Usual, rt, state, Planted::Right, 2000, counts)
}

fn report(rt: &impl Print, counts: &Tallies) -> io::Result<()> {
    println!(rt; "edges {}", counts.edges)?;
    println!(rt; "lists of calls {}", counts.lists)?;
    print!(rt; "shaped {}, encoded {}", counts.shaped, counts.encoded)?;
    print!(rt; ", located {}, repaired {}", counts.found, counts.mended)?;
    counts.print_refusals(rt, &[2, 5, 6, 32, 21, 22, 23, 7, 4, 24, 25, 34, 26])?;
    println!(rt; ", of repairs {}", counts.dead)
}

fn main(rt: HostRuntime) -> io::Result<()> {
    let mut state = 1u64;
    let mut counts = tallies::none();
    let agreed = run(&rt, &mut state, &mut counts)?;
    report(&rt, &counts)?;
    print_end(&rt, agreed)?;
    print!(rt; "planted: ")?;
    let agreed = many_calls::random(&Usual, &rt, &mut state, Planted::JobLeft, 100, &mut counts)?;
    print_end(&rt, agreed)
}

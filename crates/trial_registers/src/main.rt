// Runs the finder against second implementations that share no code with it, prints how often each answer occurred, and the first input
// on which two disagree. Then the finder is held to a planted model that is wrong, and must disagree with it.
#![tactic(auto)]

mod algorithm4;
mod drawn;
mod edges;
mod every_tap;
mod flaws;
mod registers;
mod sorted;
mod tallies;

use plain::tally::print_end;
use registers::Drawn;
use std::io;
use tallies::Tallies;

// Runs everything up to the first disagreement.
fn run(rt: &impl Print, state: &mut u64, counts: &mut Tallies) -> io::Result<bool> {
    if !edges::try_all(rt, 29, counts)? {
        return Ok(false);
    }
    if !registers::every_pair(rt, 2, 5, counts)? {
        return Ok(false);
    }
    if !registers::every_pair(rt, 3, 4, counts)? {
        return Ok(false);
    }
    if !registers::random(rt, state, Drawn::Short, 16000, counts)? {
        return Ok(false);
    }
    if !registers::random(rt, state, Drawn::Long, 400, counts)? {
        return Ok(false);
    }
    flaws::random(rt, state, 4000, counts)
}

fn report(rt: &impl Print, counts: &Tallies) -> io::Result<()> {
    println!(rt; "edges {}", counts.edges)?;
    print!(rt; "registers: alone {}", counts.alone)?;
    print!(rt; ", not alone {}", counts.not_alone)?;
    println!(rt; ", refused {}", counts.refused)?;
    println!(rt; "longer if aligned at starts: {}", counts.longer)
}

fn main(rt: HostRuntime) -> io::Result<()> {
    let mut state = 1u64;
    let mut counts = tallies::none();
    let agreed = run(&rt, &mut state, &mut counts)?;
    report(&rt, &counts)?;
    print_end(&rt, agreed)?;
    print!(rt; "planted: ")?;
    print_end(
        &rt,
        registers::random(&rt, &mut state, Drawn::Planted, 100, &mut counts)?,
    )
}

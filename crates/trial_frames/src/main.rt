// Runs encode, locate and repair on random frames against second implementations that share no code with them, prints how often each
// answer occurred, and the first frame on which two disagree. Then the calls are held to a planted model that is wrong, and must disagree with it.
#![tactic(auto)]

mod agreement;
mod every_frame;
mod frames;
mod subsets;
mod tallies;

use frames::Size;
use plain::tally::print_end;
use std::io;
use tallies::Tallies;

// Runs everything up to the first disagreement.
fn run(rt: &impl Print, state: &mut u64, counts: &mut Tallies) -> io::Result<bool> {
    if !frames::tiny_each(rt, state, 20, counts)? {
        return Ok(false);
    }
    if !frames::random(rt, state, Size::Small, 2000, None, counts)? {
        return Ok(false);
    }
    if !frames::random(rt, state, Size::Large, 40, None, counts)? {
        return Ok(false);
    }
    frames::random(rt, state, Size::Full, 20, None, counts)
}

fn report(rt: &impl Print, counts: &Tallies) -> io::Result<()> {
    print!(rt; "frames: F {}", counts.located)?;
    print!(rt; ", 24 {}", counts.refused_24)?;
    print!(rt; ", 25 {}", counts.refused_25)?;
    print!(rt; ", 26 {}", counts.refused_26)?;
    print!(rt; ", of these dead lines {}", counts.dead)?;
    println!(rt; "; encode 34 {}", counts.refused_34)?;
    print!(rt; "damage: below half the checks {}", counts.below_half)?;
    print!(rt; ", at half {}", counts.at_half)?;
    println!(rt; ", above half {}", counts.above_half)
}

fn main(rt: HostRuntime) -> io::Result<()> {
    let mut state = 1u64;
    let mut counts = tallies::none();
    let agreed = run(&rt, &mut state, &mut counts)?;
    report(&rt, &counts)?;
    print_end(&rt, agreed)?;
    print!(rt; "planted: ")?;
    print_end(
        &rt,
        frames::random(&rt, &mut state, Size::Planted, 100, None, &mut counts)?,
    )
}

// What a search has come to: where all rounds are finished, it is located by the register that the arrays hold. Else it goes on.
ghost use Rattle.std.specs.Prelude.{◌≡◌, true, [], ◌++◌, suc, ◌-◌, ◌≤◌, length, take, replicate};
ghost use Rattle.searching.specs.Arriving.{Endable, ArriveDoes, goes_on};
ghost use Rattle.slices.specs.Synthesis.{synthesis, ended};

use ends::alone;
use erasures::cells::nothing;
use frame::Shape;
use from_register::locate_by;
use heads::states::unfinished;
use job::{Answered, Progress};
use lists::arrays::padded;

// The register of a length, with zeros after it.
fn held_taps(register: &[u16; 144], l: usize) -> [u16; 65]
    requires { l ≤ 64 }
    ensures value { result ≡ take (suc l) register.now ++ replicate (64 - l) 0 }
    ensures register_len { length (take (suc l) register.now) ≡ suc l }
{
    let end = l + 1;
    padded(&register[..end])
}

#[tactic(auto, unfolding(job::specs::Job::no_columns))]
pub fn goes_on(s: Shape) -> Answered
    ensures { result ≡ goes_on s }
{
    Answered {
        reply: Ok(Progress::Unfinished),
        columns: columns::empty(),
        tried: 0,
        head: unfinished(s),
    }
}

// What is read only at the end is looked at there.
pub fn arrive(
    s: Shape,
    declared: &[u64; 32],
    sums: &[u16; 512],
    counts: &[u16; 5],
    lengths: &[u16; 8],
    places: &[u16; 8],
    sizes: &[u16; 8],
    register: &[u16; 144],
    taps: &mut [u16; 65],
) -> Answered
    requires { ended (synthesis counts.now [] [] [] [] [] [] [] []) ≡ true →
        Endable s declared.now sums.now counts.now lengths.now register.now }
    ensures { ArriveDoes s declared.now sums.now counts.now lengths.now places.now
        sizes.now register.now taps.old result taps.new }
{
    if counts[1] != counts[0] {
        return goes_on(s);
    }
    let l = usize::from(counts[4]);
    let found = held_taps(register, l);
    let mark = alone(usize::from(counts[0]), lengths, s.rows, l, places, sizes);
    locate_by(s, nothing(declared), declared, sums, l, mark, &found, taps)
}

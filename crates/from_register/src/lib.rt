// Locating by a register: the columns that it names, and whether a frame can lie there (SPECIFICATION.md, "Jobs" and "Declared cells").
#![tactic(auto)]

ghost use Rattle.std.specs.Prelude.{◌≡◌, List, ℕ, suc, take};
ghost use Rattle.decoding.specs.Remaining.{left_reach, meeting_completable};
ghost use Rattle.frame.specs.DeclaredCells.{declared_by};
ghost use Rattle.frame.specs.Frame.{held_sequences};
ghost use Rattle.from_register.specs.Register.{Reachable, Completable, Held, by_register, after};
ghost use Rattle.job.specs.Answers.{answered_outcome};
ghost use Rattle.job.specs.Job.{Arrays, with_taps, with_found};

use columns::Columns;
use erasures::cells::left_reach;
use frame::Shape;
use heads::sound::rows_reach;
use heads::states::{located, refuse, shaped};
use job::Answered;
use refusal::Refusal;
use remaining::completable::is_completable;
use search::roots::sought_columns;

// Every row has at least c checks left. Here and below, `none` tells that nothing is declared.
fn reaches(s: Shape, none: bool, declared: &[u64; 32], c: usize) -> bool
    requires { Reachable s none declared.now }
    ensures { result ≡ left_reach s (declared_by declared.now) c }
{
    if none {
        rows_reach(s, c)
    } else {
        left_reach(s, declared, c)
    }
}

// Each row in which a named column is declared can be completed. With nothing declared there is none.
fn completes(s: Shape, none: bool, declared: &[u64; 32], named: Columns, sums: &[u16; 512]) -> bool
    requires { Completable s none declared.now named sums.now }
    ensures { result ≡ meeting_completable s (declared_by declared.now) named (held_sequences s sums.now) }
{
    none || is_completable(s, declared, named, sums)
}

// The register has `length` + 1 taps. They are written last, so that a refusal leaves `taps` as they were.
pub fn locate_by(
    s: Shape,
    none: bool,
    declared: &[u64; 32],
    sums: &[u16; 512],
    length: usize,
    alone: bool,
    register: &[u16; 65],
    taps: &mut [u16; 65],
) -> Answered
    requires { Held s none declared.now sums.now length register.now }
    ensures { (a : Arrays) (f : List ℕ) → answered_outcome result
        (with_found a (after result.reply a.sums sums.now) taps.new (after result.reply a.declared declared.now)) f
        ≡ by_register s (with_taps a taps.old) declared.now sums.now length (take (suc length) register.now) alone f }
{
    if !alone {
        return refuse(shaped(s), Refusal::NotAlone);
    }
    if !reaches(s, none, declared, length) {
        return refuse(shaped(s), Refusal::ShortRow);
    }
    let end = length + 1;
    let sought = sought_columns(s.columns, &register[..end]);
    let named = sought.columns;
    if columns::size(named) < length {
        return refuse(shaped(s), Refusal::NoFrame);
    }
    if !completes(s, none, declared, named, sums) {
        return refuse(shaped(s), Refusal::NoFrame);
    }
    *taps = *register;
    located(s, length, named, sought.tried)
}

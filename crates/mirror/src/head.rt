// Heads of jobs and their mirrors on the other side of the C interface. Here and in the crates above, an array that is put from one struct into another has a
// name of its own between them: no proof is generated for one that is put straight.
ghost use Rattle.std.specs.Prelude.{◌≡◌};
ghost use Rattle.mirror.specs.Mirror.{phase_of, head_of, mirror_of};

use crate::CHead;
use columns::Columns;
use frame::Shape;
use job::{Head, Phase};

fn phase_of(phase: u32, length: usize, alone: u32) -> Phase
    ensures { result ≡ phase_of phase length alone }
{
    match phase {
        1 => Phase::Shaped,
        2 => Phase::Located {
            length,
            alone: alone == 1,
        },
        3 => Phase::Unfinished,
        _ => Phase::Empty,
    }
}

pub fn head_of(m: CHead) -> Head
    ensures { result ≡ head_of m }
{
    let checks = m.checks;
    let words = m.marks;
    let shape = Shape {
        rows: m.rows,
        columns: m.columns,
        checks,
        exponent: m.exponent,
    };
    Head {
        phase: phase_of(m.phase, m.length, m.alone),
        shape,
        columns: Columns { words },
    }
}

pub fn mirror_of(j: Head) -> CHead
    ensures { result ≡ mirror_of j }
{
    let (phase, length, alone) = match j.phase {
        Phase::Empty => (0, 0, false),
        Phase::Shaped => (1, 0, false),
        Phase::Located { length, alone } => (2, length, alone),
        Phase::Unfinished => (3, 0, false),
    };
    let checks = j.shape.checks;
    let marks = j.columns.words;
    CHead {
        phase,
        alone: u32::from(alone),
        length,
        rows: j.shape.rows,
        columns: j.shape.columns,
        marks,
        checks,
        exponent: j.shape.exponent,
    }
}

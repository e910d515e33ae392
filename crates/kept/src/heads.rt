// The head of one of eight jobs, out of the arrays and into them.
ghost use Rattle.std.specs.Prelude.{◌≡◌, ◌<◌};
ghost use Rattle.kept.specs.Kept.{heads, head_at, with_head};

use job::Head;
use mirror::CHead;
use mirror::head::{head_of, mirror_of};

pub fn head_at(
    k: usize,
    states: &[[u32; 3]; 8],
    extents: &[[usize; 3]; 8],
    checks: &[[u16; 8]; 8],
    marks: &[[u64; 4]; 8],
) -> Head
    requires { k < 8 }
    ensures { result ≡ head_at (heads states.now extents.now checks.now marks.now) k }
{
    let counts = checks[k];
    let words = marks[k];
    head_of(CHead {
        phase: states[k][0],
        alone: states[k][1],
        length: extents[k][2],
        rows: extents[k][0],
        columns: extents[k][1],
        marks: words,
        checks: counts,
        exponent: states[k][2],
    })
}

// The other heads stay.
pub fn put_head(
    k: usize,
    head: Head,
    states: &mut [[u32; 3]; 8],
    extents: &mut [[usize; 3]; 8],
    checks: &mut [[u16; 8]; 8],
    marks: &mut [[u64; 4]; 8],
)
    requires { k < 8 }
    ensures { heads states.new extents.new checks.new marks.new ≡
        with_head (heads states.old extents.old checks.old marks.old) k head }
{
    let m = mirror_of(head);
    let counts = m.checks;
    let words = m.marks;
    states[k] = [m.phase, m.alone, m.exponent];
    extents[k] = [m.rows, m.columns, m.length];
    checks[k] = counts;
    marks[k] = words;
}

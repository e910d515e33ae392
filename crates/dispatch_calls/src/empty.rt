// Eight empty jobs.
ghost use Rattle.dispatch.specs.Calls.{EmptyDoes};
ghost use Rattle.kept.specs.Kept.{heads};

// Job 7 counts as served last. The arrays beside the heads may hold anything.
pub fn empty(
    last: &mut usize,
    states: &mut [[u32; 3]; 8],
    extents: &mut [[usize; 3]; 8],
    checks: &mut [[u16; 8]; 8],
    marks: &mut [[u64; 4]; 8],
)
    ensures { EmptyDoes (heads states.new extents.new checks.new marks.new) last.new }
{
    *last = 7;
    *states = [[0; 3]; 8];
    *extents = [[0; 3]; 8];
    *checks = [[0; 8]; 8];
    *marks = [[0; 4]; 8];
}

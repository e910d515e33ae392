// The marked columns of a set one after another.
ghost use Rattle.std.specs.Prelude.{◌≡◌};
ghost use Rattle.std.specs.Iterator.{YieldsFirst, item_count};
ghost use Rattle.columns.specs.Columns.{members};
ghost use Rattle.columns.specs.Rising.{to_come};

use crate::{Columns, next};

// Those from the column `from` on, rising.
#[derive(Clone, Copy)]
pub struct Members {
    set: Columns,
    from: usize,
}

impl Iterator for Members {
    type Item = usize;

    ghost next_gives = { YieldsFirst to_come };

    ghost remaining = { item_count to_come };

    fn next(&mut self) -> Option<usize> {
        let i = next(self.set, self.from);
        if i == 256 {
            return None;
        }
        self.from = i + 1;
        Some(i)
    }
}

impl Columns {
    // All of them.
    pub fn members(self) -> Members
        ensures { to_come result ≡ members self }
    {
        Members { set: self, from: 0 }
    }
}

// The search for the columns that a register names, for C.
ghost use Rattle.std.specs.Prelude.{◌≡◌};
ghost use Rattle.mirror.specs.Mirror.{columns_for};
ghost use Rattle.search.specs.Search.{answer};

use mirror::CColumns;
use mirror::answers::columns_of;
use search::roots::search;

#[unsafe(no_mangle)]
pub extern "C" fn tomkhadi_search(columns: usize, taps: &[u16]) -> CColumns
    ensures { result ≡ columns_for (answer columns taps.now) }
{
    columns_of(search(columns, taps))
}

// The finder for C.
ghost use Rattle.capi.specs.Exports.{CFinds};

use mirror::CRegister;
use mirror::answers::register_of;

#[unsafe(no_mangle)]
pub extern "C" fn tomkhadi_find(
    p: u32,
    lengths: &[u16],
    symbols: &[u16],
    taps: &mut [u16],
) -> CRegister
    ensures { CFinds p lengths.now symbols.now taps.old taps.new result }
{
    register_of(finder::find::find(p, lengths, symbols, taps))
}

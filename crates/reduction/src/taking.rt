// The multiple of a part of an array taken off another array, for an odd modulus.
ghost use Rattle.reduction.specs.Taking.{Odd, Cells, Less};

use discrepancy::Modulus;
use field::montgomery::{bottom, less_product};

// The products of u and the `count` numbers from `from` on, over 2^16, are taken off the cells from e on. The modulus is read from an array of it, and u taken
// from there: so the compiler sees factors of 16 bits.
pub fn take_off(
    f: Modulus,
    moduli: &[u16; 144],
    cells: &mut [u16; 144],
    e: usize,
    u: u32,
    numbers: &[u16; 1152],
    from: usize,
    count: usize,
)
    requires odd { Odd f moduli.now u }
    requires cells { Cells f.p e from count cells.old }
    ensures { Less f.p u numbers.now from e count cells.old cells.new }
{
    let v = bottom(u as u16, f.inverse);
    let less = (f.p - u) as u16;
    for i in 0..count {
        let k = e + i;
        let p = moduli[i];
        cells[k] = less_product(cells[k], numbers[from + i], p - less, v, p);
    }
}

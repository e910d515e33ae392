// A small number for any of 16 bits, modulo 257 the same.
ghost use Rattle.std.specs.Prelude.{◌≡◌, ◌%◌, ◌≤◌};

// 256 is -1 modulo 257, so that what is above the lower byte is taken away. 257 is added, which is no less than that.
pub fn light(v: u16) -> u16
    ensures same { result % 257 ≡ v % 257 }
    ensures bounded { result ≤ 512 }
{
    v % 256 + (257 - v / 256)
}

// The tests of a record's bytes.
ghost use Rattle.std.specs.Prelude.{true, ◌≡◌, ◌≤◌, ◌<◌, length};
ghost use Rattle.record.specs.Record.{claimed_by, is_whole};

use reader::nth;

// How many bytes a record claims after its length.
pub fn claimed(bytes: &[u8]) -> usize
    ensures { (result ≡ claimed_by bytes.now) × (result < 65536) }
{
    let Some(n) = nth(bytes, 0) else {
        return 0;
    };
    usize::from(n)
}

// The bytes are all that the length claims, two or more of them and even.
pub fn whole(bytes: &[u8]) -> bool
    ensures value { result ≡ is_whole bytes.now }
    ensures in_bounds { result ≡ true → (2 ≤ length bytes.now) × (length bytes.now < 65538) }
{
    let n = claimed(bytes);
    if n < 2 {
        return false;
    }
    if n % 2 != 0 {
        return false;
    }
    bytes.len() == 2 + n
}

// A slice as an array of fixed size.
ghost use Rattle.std.specs.Prelude.{◌≡◌, ◌-◌, ◌++◌, ◌≤◌, length, replicate};

// The entries of x, and zeros after them.
pub fn padded<const N: usize>(x: &[u16]) -> [u16; N]
    requires { length x.now ≤ N }
    ensures { result ≡ x.now ++ replicate (N - length x.now) 0 }
{
    let mut y = [0; N];
    y[..x.len()].copy_from_slice(x);
    y
}

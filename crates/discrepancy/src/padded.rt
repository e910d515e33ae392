// How far loops go over the entries of an array.
ghost use Rattle.std.specs.Prelude.{◌+◌, ◌≤◌};

// So many entries and a few more, up to a multiple of 8: none is left for the compiler to do one by one then.
pub fn padded(count: usize) -> usize
    requires { count ≤ 144 }
    ensures enough { count ≤ result }
    ensures few { result ≤ count + 7 }
{
    // Kept as a division: in what next_multiple_of answers the compiler does not see the multiple of 8, and its loops were slower.
    (count + 7) / 8 * 8
}

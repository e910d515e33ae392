// Counts of what occurred, and the lines that are printed of them. No contract can say what is printed: what is lent is only read.
ghost use Rattle.std.specs.Prelude.{◌≡◌, ◌+◌, ◌%◌, if◌then◌else◌};

use std::io;

// Adds to a count, if it is so.
pub fn count(n: &mut u64, so: bool)
    ensures { n.new ≡ (n.old + (if so then 1 else 0)) % 18446744073709551616 }
{
    *n = n.wrapping_add(u64::from(so));
}

// A text and the values of a list.
pub fn print_list(rt: &impl Print, text: &[u8], a: &[u16]) -> io::Result<()> {
    rt.write_all(text)?;
    for v in a {
        print!(rt; " {v}")?;
    }
    Ok(())
}

// A text, a shape and a frame.
pub fn print_frame(
    rt: &impl Print,
    text: &[u8],
    exponent: u32,
    columns: u16,
    checks: &[u16],
    frame: &[u16],
) -> io::Result<()> {
    rt.write_all(text)?;
    print!(rt; ": columns {columns}")?;
    print_list(rt, b", checks", checks)?;
    print!(rt; ", exponent {exponent}")?;
    print_list(rt, b", frame", frame)?;
    println!(rt)
}

// Whether anything disagreed, in the last line of a run.
pub fn print_end(rt: &impl Print, agreed: bool) -> io::Result<()> {
    let n = u8::from(!agreed);
    println!(rt; "disagreements {n}")
}

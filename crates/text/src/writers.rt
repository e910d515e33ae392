// Writers of text. Each puts its text into the lent buffer from `at` on and answers where it ends.
ghost use Rattle.std.specs.Prelude.{[], ◌∷◌, ◌≡◌, ◌+◌, ◌*◌, ◌%◌, ◌≤◌, ◌<◌, length};
ghost use Rattle.columns.specs.Columns.{members};
ghost use Rattle.text.specs.Text.{decimal, spaced};
ghost use Rattle.text.specs.Written.{Written};

use columns::Columns;

pub fn put_byte(out: &mut [u8], at: usize, b: u8) -> usize
    requires { at < length out.old }
    ensures { Written out.old at (b ∷ []) out.new result }
{
    out[at] = b;
    at + 1
}

// The last digit of n.
fn digit(n: u16) -> u8
    ensures { result ≡ 48 + n % 10 }
{
    48 + (n % 10) as u8
}

// The digits of n: those of n / 10 come first.
fn put_decimal(out: &mut [u8], at: usize, n: u16) -> usize
    requires { at + length (decimal n) ≤ length out.old }
    ensures { Written out.old at (decimal n) out.new result }
{
    if n < 10 {
        return put_byte(out, at, digit(n));
    }
    let last = put_decimal(out, at, n / 10);
    put_byte(out, last, digit(n))
}

// A space and the number n.
pub fn put_number(out: &mut [u8], at: usize, n: u16) -> usize
    requires { at + 6 ≤ length out.old }
    ensures written { Written out.old at (spaced (n ∷ [])) out.new result }
    ensures upper_bound { result ≤ at + 6 }
{
    let start = put_byte(out, at, b' ');
    put_decimal(out, start, n)
}

// Each of the numbers after a space.
pub fn put_numbers(out: &mut [u8], at: usize, xs: &[u16]) -> usize
    requires { at + 6 * length xs.now ≤ length out.old }
    ensures written { Written out.old at (spaced xs.now) out.new result }
    ensures upper_bound { result ≤ at + 6 * length xs.now }
{
    let mut end = at;
    for x in xs {
        end = put_number(out, end, *x);
    }
    end
}

// Each marked column after a space, rising.
pub fn put_columns(out: &mut [u8], at: usize, c: Columns) -> usize
    requires { at + 6 * length (members c) ≤ length out.old }
    ensures written { Written out.old at (spaced (members c)) out.new result }
    ensures upper_bound { result ≤ at + 6 * length (members c) }
{
    let mut end = at;
    for i in c.members() {
        end = put_number(out, end, i as u16);
    }
    end
}

// The 16-bit fields of a record's bytes, little-endian, handed out one after another: `field_at` looks at the bytes, the functions over a
// `Reader` are thin, and callers use `nth` above them.
#![tactic(auto)]

ghost use Rattle.std.specs.Prelude.{◌≡◌, ◌+◌, ◌*◌, ◌/◌, ◌^◌, ◌<◌, min, length};
ghost use Rattle.reader.specs.Fields.{field_at, Filled};

// The bytes of a record, and the place of the next field.
#[derive(Clone, Copy)]
pub struct Reader<'a> {
    pub src: &'a [u8],
    pub at: usize,
}

// The field whose first byte stands at `at`, where two bytes are left. Each byte is looked for by itself, so that no sum wraps.
pub fn field_at(s: &[u8], at: usize) -> Option<u16>
    ensures { result ≡ field_at s.now at }
{
    if s.len() <= at {
        return None;
    }
    let high = at + 1;
    if s.len() <= high {
        return None;
    }
    Some(pair(s[at], s[high]))
}

impl<'a> Reader<'a> {
    // A reader that has handed out nothing yet.
    pub fn new(src: &'a [u8]) -> Reader<'a>
        ensures { (result.src ≡ src.entry) × (result.at ≡ 0) }
    {
        Reader { src, at: 0 }
    }

    // The next field.
    pub fn next(self) -> Option<u16>
        ensures { result ≡ field_at self.entry.src.now self.entry.at }
    {
        field_at(self.src, self.at)
    }

    // The reader past its next k fields.
    pub fn advanced(self, k: usize) -> Reader<'a>
        requires { self.at + 2 * k < 2 ^ 64 }
        ensures { (result.src ≡ self.entry.src) × (result.at ≡ self.entry.at + 2 * k) }
    {
        Reader {
            src: self.src,
            at: self.at + 2 * k,
        }
    }
}

// Field number k, counted from 0.
pub fn nth(s: &[u8], k: usize) -> Option<u16>
    requires { 2 * k < 2 ^ 64 }
    ensures { result ≡ field_at s.now (2 * k) }
{
    Reader::new(s).advanced(k).next()
}

// The number with these two bytes, the low one first.
fn pair(low: u8, high: u8) -> u16
    ensures { result ≡ low + 256 * high }
{
    u16::from(low) + 256 * u16::from(high)
}

// One field after another, into `out`, up to the end of the bytes or of `out`; and how many. The count comes first: a loop with no other way out is compiled to
// work on several fields at a time.
pub fn fields(s: &[u8], out: &mut [u16]) -> usize
    ensures value { result ≡ min (length s.now / 2) (length out.old) }
    ensures filled { Filled s.now out.old out.new result }
{
    let n = (s.len() / 2).min(out.len());
    for k in 0..n {
        out[k] = pair(s[2 * k], s[2 * k + 1]);
    }
    n
}

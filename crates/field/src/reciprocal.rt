// Remainders by a fixed p with one division for all of them, of products of residues and of sums of up to 129 of these. That a result is below p follows
// from what it equals; it is said besides, for the callers.
ghost use Rattle.std.specs.Prelude.{◌≡◌, ◌+◌, ◌/◌, ◌%◌, ◌<◌};
ghost use Rattle.field.specs.Dividends.{Dividend, WideDividend};

// In parts of 2^48, rounded up.
pub fn reciprocal(p: u32) -> u64
    requires { 0 < p }
    ensures { result ≡ 281474976710655 / p + 1 }
{
    281474976710655 / u64::from(p) + 1
}

// m·v is v over p in parts of 2^48, a little too large. p times its fraction is the remainder in the same parts, with nothing left to correct (Lemire).
pub fn remainder(v: u32, p: u32, m: u64) -> u32
    requires { Dividend v p m }
    ensures equals { result ≡ v % p }
    ensures below { result < p }
{
    let fraction = m * u64::from(v) % 281474976710656;
    (fraction * u64::from(p) / 281474976710656) as u32
}

// In parts of 2^40.
pub fn wide_reciprocal(p: u32) -> u64
    requires { 0 < p }
    ensures { result ≡ 1099511627776 / p }
{
    1099511627776 / u64::from(p)
}

// The quotient that the reciprocal m gives is right or one too small (Barrett). With v below 2^24·p, v is below 2^40 and m·v below 2^64.
pub fn wide_remainder(v: u64, p: u32, m: u64) -> u32
    requires { WideDividend v p m }
    ensures equals { result ≡ v % p }
    ensures below { result < p }
{
    let t = m * v / 1099511627776;
    let r = (v - t * u64::from(p)) as u32;
    if r >= p {
        return r - p;
    }
    r
}

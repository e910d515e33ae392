// Values modulo p in lent arrays. These functions are total, so that no caller owes them anything: a value outside an array reads
// as 0 and is not written, and modulo 0 everything is 0.
ghost use Rattle.std.specs.Prelude.{◌≡◌, ◌+◌, ◌-◌, ◌*◌, ◌%◌, ◌<◌, length, take, slice_index, slice_set};
ghost use Rattle.plain.specs.Plain.{before, part, rem};
ghost use Rattle.plain.specs.Written.{Wrote};

pub fn get(a: &[u16], i: usize) -> u16
    ensures { result ≡ slice_index a.now i }
{
    match a.get(i) {
        Some(v) => *v,
        None => 0,
    }
}

pub fn put(a: &mut [u16], i: usize, v: u16)
    ensures { a.new ≡ slice_set a.old i v }
{
    // Kept as an index: after `get_mut` the check does not know that the other places stay.
    if i < a.len() {
        a[i] = v;
    }
}

// Puts v at place `at` + i, however large the sum.
pub fn put_at(a: &mut [u16], at: usize, i: usize, v: u16)
    ensures { a.new ≡ slice_set a.old (at + i) v }
{
    put(a, at.saturating_add(i), v);
}

// The first n values become v.
pub fn set(a: &mut [u16], n: usize, v: u16)
    ensures { Wrote a.old a.new 0 n (λ k. v) }
{
    // Kept as a loop over `put`: after `fill` of a part the check does not know that the places behind it stay.
    for i in 0..n {
        put(a, i, v);
    }
}

// The value k places before place i.
pub fn before(a: &[u16], i: usize, k: usize) -> u16
    ensures { result ≡ before a.now i k }
{
    i.checked_sub(k).map_or(0, |j| get(a, j))
}

// The part of a that starts at `start` and has n values; nothing where it does not lie in a.
pub fn part(a: &[u16], start: usize, n: usize) -> &[u16]
    ensures { result.now ≡ part a.now start n }
{
    if start <= a.len() && n <= a.len() - start {
        return &a[start..start + n];
    }
    &[]
}

// The first n values of a, to be written; all of a where it has fewer. They stand where a stands.
pub fn first(a: &mut [u16], n: usize) -> &mut [u16]
    ensures { (result.now ≡ take n a.old) × (result.ref_ptr ≡ a.entry.ref_ptr) }
{
    let end = n.min(a.len());
    &mut a[..end]
}

// Puts one list into another from place `at` on.
pub fn copy(from: &[u16], to: &mut [u16], at: usize)
    ensures { Wrote to.old to.new at (at + length from.now) (λ k. slice_index from.now (k - at)) }
{
    for (i, v) in from.iter().enumerate() {
        put_at(to, at, i, *v);
    }
}

pub fn product(a: u16, b: u16) -> u64
    ensures { (result ≡ a * b) × (result < 4294967296) }
{
    u64::from(a) * u64::from(b)
}

pub fn remainder(x: u64, p: u16) -> u16
    ensures { result ≡ rem x p }
{
    if p == 0 {
        return 0;
    }
    (x % u64::from(p)) as u16
}

// a·b − c·d modulo p. A multiple of p that is above c·d is added first.
pub fn cross(p: u16, a: u16, b: u16, c: u16, d: u16) -> u16
    ensures { (rem (result + c * d) p ≡ rem (a * b) p) × (result ≡ rem result p) }
{
    if p == 0 {
        return 0;
    }
    remainder(product(a, b) + 4294967296 * u64::from(p) - product(c, d), p)
}

pub fn times(p: u16, a: u16, b: u16) -> u16
    ensures { result ≡ rem (a * b) p }
{
    remainder(product(a, b), p)
}

// a + b·c modulo p.
pub fn plus_product(p: u16, a: u16, b: u16, c: u16) -> u16
    ensures { result ≡ rem (a + b * c) p }
{
    remainder(u64::from(a) + product(b, c), p)
}

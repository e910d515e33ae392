// One step of every lane.
ghost use Rattle.lanes.specs.Lanes.{Steppable, Stepped};

use field::narrow::product as times;
use field257::montgomery::product;

// Lane i has the locator x[i] with its companion z[i], the last coefficient q[i] of its quotient, what Horner's rule has of the quotient, v[i], and what was
// read off so far, t[i]. The next coefficient comes from that of the dividend, c; s is the check sum that it is multiplied by. None of them is reduced.
pub fn step(
    n: usize,
    c: u16,
    s: u16,
    x: &[u16; 64],
    z: &[u16; 64],
    q: &mut [u16; 64],
    v: &mut [u16; 64],
    t: &mut [u32; 64],
)
    requires { Steppable n c s x.now z.now q.old v.old t.old }
    ensures { Stepped n c s x.now q.old v.old t.old q.new v.new t.new }
{
    for i in 0..n {
        let next = c + product(q[i], x[i], z[i]);
        q[i] = next;
        v[i] = next + product(v[i], x[i], z[i]);
        t[i] += times(next, s);
    }
}

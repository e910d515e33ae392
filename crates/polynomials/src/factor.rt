// A polynomial times a factor of degree 1.
ghost use Rattle.std.specs.Prelude.{◌≡◌, ◌+◌, ◌*◌, ◌%◌, ◌≤◌, length, get_or};
ghost use Rattle.field.specs.Coefficients.{shifted};
ghost use Rattle.lists.specs.Tabulate.{tabulate};

// f times a z + b, in place and as far as there are places: the coefficient below is kept before it is changed.
pub fn multiply(f: &mut [u16], a: u32, b: u32)
    requires { (a ≤ 257) × (b ≤ 257) }
    ensures { f.new ≡ tabulate (length f.old)
        (λ k. (a * shifted 1 f.old k + b * get_or f.old k 0) % 257) }
{
    let mut below = 0;
    for x in f.iter_mut() {
        let old = u32::from(*x);
        *x = ((a * below + b * old) % 257) as u16;
        below = old;
    }
}

// A test of every entry.
ghost use Rattle.std.specs.Prelude.{◌≡◌, Bool, ℕ, ◌<◌, length, get_or};
ghost use Rattle.lists.specs.Tabulate.{every};

// Whether every entry passes. No early return, so that many entries are compared at once.
pub fn every<F: Fn(u16) -> bool>(x: &[u16], passes: F) -> bool
    requires { F.IsAlwaysCallable passes }
    ensures { (test : ℕ → Bool) → ((v : ℕ) (r : Bool) → v < 65536 → F.post passes v r → r ≡ test v)
        → result ≡ every (length x.now) (λ k. test (get_or x.now k 0)) }
{
    let mut all = true;
    for v in x {
        all &= passes(*v);
    }
    all
}

// Whether the same stands at each of many places. The bits that differ are gathered over all places, and looked at once, behind the loop: so
// the compiler takes several places in one step.
ghost use Rattle.std.specs.Prelude.{◌≡◌, ℕ, ◌<◌, length};
ghost use Rattle.session.specs.Session.{same_nats};
ghost use Rattle.session.specs.Same.{NoneDiffer};

// Whether no bit differs at the first `count` places. `differ` tells the bits that differ at a place.
// Kept: `==` of slices looks at one place after another, with a branch for each: by it a call at 10 x 10 takes 800 ns for 750.
pub fn alike<F: Fn(usize) -> u64>(count: usize, differ: F) -> bool
    requires { (i : ℕ) → i < count → F.pre differ i }
    ensures { NoneDiffer (F.post differ) count result }
{
    let mut differing: u64 = 0;
    for i in 0..count {
        differing |= differ(i);
    }
    differing == 0
}

// Whether two slices of one length are the same.
pub fn same<'a>(a: &'a [u64], b: &'a [u64]) -> bool
    requires { length a.now ≡ length b.now }
    ensures { result ≡ same_nats a.now b.now }
{
    alike(a.len(), |i| a[i] ^ b[i])
}

// Whole square roots. Whatever finds one stands behind this one promise.
ghost use Rattle.std.specs.Prelude.{◌≡◌, ◌^◌, ◌<◌};
ghost use Rattle.constraint.specs.Hulls.{is_root, Root};

// Whether r is the root of n, rounded down: what its square leaves of n is at most twice r.
fn is_root(n: u64, r: u64) -> bool
    requires { r < 2 ^ 32 }
    ensures { result ≡ is_root n r }
{
    r * r <= n && n - r * r <= 2 * r
}

// The root of n, rounded down.
pub(crate) fn root(n: u64) -> u64
    ensures { Root n result }
{
    // The root has so many bits.
    let bits = (65 - n.leading_zeros()) / 2;
    // A line that strays at most 3 in 100 from the root, and three steps of Newton's rule. All this is a guess: nothing rests on
    // it but the time, since a guess is tested, and one that fails is done without.
    let mut guess = ((n >> bits).wrapping_mul(11) / 16)
        .wrapping_add((11 << bits) / 32)
        .max(1);
    for _ in 0..3 {
        guess = (guess.wrapping_add(n / guess) / 2).max(1);
    }
    let guess = guess.min(u32::MAX as u64);
    if is_root(n, guess) {
        guess
    } else if is_root(n, guess - 1) {
        guess - 1
    } else {
        n.isqrt()
    }
}

// Pairs of numbers below 8. The pair (a, b) has the place 8a + b, so that places rise by a, and then by b.
ghost use Rattle.std.specs.Prelude.{◌≡◌, ◌+◌, ◌*◌, ◌/◌, ◌%◌, ℕ, Bool};
ghost use Rattle.frames.specs.Tests.{first_pair, word, Says};

// The place of a pair.
pub(crate) fn place(a: u8, b: u8) -> u32
    ensures { result ≡ 8 * a + b }
{
    8 * u32::from(a) + u32::from(b)
}

// The pair at a place.
fn pair(q: u8) -> (u8, u8)
    ensures { result ≡ (q / 8, q % 8) }
{
    (q / 8, q % 8)
}

// The first pair that passes.
pub(crate) fn first_pair<F: Fn(u8, u8) -> bool>(test: F) -> Option<(u8, u8)>
    requires { F.IsAlwaysCallable test }
    ensures { (says : ℕ → ℕ → Bool) → Says (F.post test) says → result ≡ first_pair says }
{
    (0..64).map(pair).find(|&(a, b)| test(a, b))
}

// The word with the bits of the pairs that pass.
pub(crate) fn word_of<F: Fn(u8, u8) -> bool>(test: F) -> u64
    requires { F.IsAlwaysCallable test }
    ensures { (says : ℕ → ℕ → Bool) → Says (F.post test) says → result ≡ word says }
{
    (0..64).fold(0, |word, q| {
        let (a, b) = pair(q);
        word | u64::from(test(a, b)) << q
    })
}

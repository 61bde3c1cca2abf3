// Divisibility, greatest common divisors and least common multiples.
ghost use Rattle.std.specs.Prelude.{◌≡◌, ◌^◌, ◌<◌};
ghost use Rattle.std.specs.Option.{SomeIff};
ghost use Rattle.divisors.specs.Divisors.{divides, gcd, lcm};

// Whether x is not 0 and divides n.
pub(crate) fn divides(x: u32, n: u32) -> bool
    ensures { result ≡ divides x n }
{
    x != 0 && n % x == 0
}

// The greatest common divisor, by Euclid's divisions.
pub(crate) fn gcd(a: u32, b: u32) -> u32
    ensures { result ≡ gcd a b }
{
    if b == 0 { a } else { gcd(b, a % b) }
}

// The least common multiple, unless it is too large.
pub(crate) fn lcm(a: u32, b: u32) -> Option<u32>
    ensures { SomeIff result (lcm a b < 2 ^ 32) (lcm a b) }
{
    let g = gcd(a, b);
    if g == 0 {
        return Some(0);
    }
    (a / g).checked_mul(b)
}

// The divisors of a number, with greatest common divisors and least common multiples.
ghost use Rattle.std.specs.Prelude.{◌≡◌, ◌^◌, ◌<◌, Decides};
ghost use Rattle.std.specs.Int.{◌∣◌};
ghost use Rattle.lattice.specs.Answers.{Meets, Joins, Compares};
ghost use Rattle.divisors.specs.Refused.{told_as};
ghost use Rattle.divisors.specs.Divisors.{making, divides, divisors, GreatestCommonDivisor, LeastCommonMultiple};
ghost use Rattle.free_lattice.proofs.Bounds.{laws_of_bounded};
ghost use Rattle.divisors.specs.Divisibility.{divisors_bounded};

use crate::common::{divides, gcd, lcm};
use crate::refusal::Refusal;
use lattice::Lattice;

// The lattice of the divisors of n.
#[derive(Clone, Copy)]
pub struct Divisors {
    n: u32,
    ghost positive: { 0 < n },
    ghost small: { n < 2 ^ 32 },
}

impl Divisors {
    pub fn of(n: u32) -> Result<Divisors, Refusal>
        ensures { told_as (λ d. d.n) result ≡ making n }
    {
        if n == 0 {
            return Err(Refusal::Zero);
        }
        Ok(Divisors { n })
    }
}

impl Lattice for Divisors {
    type Element = u32;

    ghost means = { λ d. divisors d.n };

    ghost laws = { λ d. laws_of_bounded (divisors_bounded d.n d.positive) };

    fn admits(&self, x: u32) -> bool
        ensures decides { Decides result ((divisors self.now.n).admitted x) }
        ensures is { result ≡ divides x self.now.n }
    {
        divides(x, self.n)
    }

    fn meet(&self, a: u32, b: u32) -> u32
        ensures meets { Meets (divisors self.now.n) a b result }
        ensures law { a ∣ self.now.n → b ∣ self.now.n → GreatestCommonDivisor a b result }
    {
        gcd(a, b)
    }

    // Only where a or b is not admitted can the multiple be too large; then 0, which is not admitted either.
    fn join(&self, a: u32, b: u32) -> u32
        ensures joins { Joins (divisors self.now.n) a b result }
        ensures law { a ∣ self.now.n → b ∣ self.now.n → LeastCommonMultiple a b result }
    {
        lcm(a, b).unwrap_or(0)
    }

    fn below(&self, a: u32, b: u32) -> bool
        ensures compares { Compares (divisors self.now.n) a b result }
        ensures law { a ∣ self.now.n → b ∣ self.now.n → Decides result (a ∣ b) }
    {
        divides(a, b)
    }
}

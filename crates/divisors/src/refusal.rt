// Why a number has no lattice of divisors.
ghost use Rattle.std.specs.Prelude.{◌≡◌, Some};
ghost use Rattle.refused.specs.Refused.{text};
ghost use Rattle.divisors.specs.Refused.{row};

use std::fmt;

#[derive(Clone, Copy, PartialEq, Eq, Debug)]
pub enum Refusal {
    // Every number divides 0.
    Zero = 17,
}

impl Refusal {
    // The number by which users know the refusal.
    pub fn number(self) -> u8
        ensures { result ≡ (row self).number }
    {
        self as u8
    }
}

impl fmt::Display for Refusal {
    ghost output = { λ r. Some (text (row r)) };

    fn fmt<W: fmt::Write>(&self, f: &mut fmt::Formatter<W>) -> fmt::Result {
        let number = self.number();
        write!(f, "{number}")
    }
}

// Why a call on the sheet is refused.
ghost use Rattle.std.specs.Prelude.{◌≡◌, Some};
ghost use Rattle.refused.specs.Refused.{text};
ghost use Rattle.sheet.specs.Refused.{row};

use std::fmt;

#[derive(Clone, Copy, PartialEq, Eq, Debug)]
pub enum Refusal {
    // The node is new, and 60 are there.
    Full,
    // A node number that is not there.
    NoNode(usize),
    // A code that no variable has.
    BadCode,
}

impl Refusal {
    // The number by which users know the refusal. It and the text are written out: an enum whose variants carry
    // values has no numbers to cast, and no derive states a text.
    pub fn number(self) -> u8
        ensures { result ≡ (row self).number }
    {
        match self {
            Refusal::Full => 8,
            Refusal::NoNode(_) => 9,
            Refusal::BadCode => 10,
        }
    }
}

// The number, and behind it the value that the refusal returns.
impl fmt::Display for Refusal {
    ghost output = { λ r. Some (text (row r)) };

    fn fmt<W: fmt::Write>(&self, f: &mut fmt::Formatter<W>) -> fmt::Result {
        let number = self.number();
        match self {
            Refusal::NoNode(k) => write!(f, "{number} {k}"),
            Refusal::Full | Refusal::BadCode => write!(f, "{number}"),
        }
    }
}

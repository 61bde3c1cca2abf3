// Why a pair of nodes is not tried.
ghost use Rattle.std.specs.Prelude.{◌≡◌, Some};
ghost use Rattle.refused.specs.Refused.{text};
ghost use Rattle.trying.specs.Refused.{row};

use std::fmt;

#[derive(Clone, Copy, PartialEq, Eq, Debug)]
pub enum Refusal {
    // A node number that is not there.
    NoNode(usize),
    // There are too few slots.
    FewSlots,
    // The node is a variable, and its slot holds what the lattice does not admit.
    Unadmitted(usize),
}

impl Refusal {
    // The number by which users know the refusal.
    // It and the text are written out: an enum whose variants carry values has no numbers to cast, and no derive states a text.
    pub fn number(self) -> u8
        ensures { result ≡ (row self).number }
    {
        match self {
            Refusal::NoNode(_) => 9,
            Refusal::FewSlots => 18,
            Refusal::Unadmitted(_) => 19,
        }
    }
}

// The number, and behind it the value that the refusal returns.
impl fmt::Display for Refusal {
    ghost output = { λ r. Some (text (row r)) };

    fn fmt<W: fmt::Write>(&self, f: &mut fmt::Formatter<W>) -> fmt::Result {
        let number = self.number();
        match self {
            Refusal::NoNode(k) | Refusal::Unadmitted(k) => write!(f, "{number} {k}"),
            Refusal::FewSlots => write!(f, "{number}"),
        }
    }
}

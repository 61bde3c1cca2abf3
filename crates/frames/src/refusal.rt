// Why a draft is not begun, takes no line or does not close.
ghost use Rattle.std.specs.Prelude.{◌≡◌, Some};
ghost use Rattle.refused.specs.Refused.{text};
ghost use Rattle.frames.specs.Refused.{row};

use std::fmt;

#[derive(Clone, Copy, PartialEq, Eq, Debug)]
pub enum Refusal {
    // No elements, or more than 8.
    Size,
    // A line from or to an element that is not there.
    Element,
    // The first two elements that are below each other.
    Cycle(u8, u8),
    // The first two elements that lack a join or a meet: they have no join.
    NoJoin(u8, u8),
    // The same, but they have a join and no meet.
    NoMeet(u8, u8),
}

impl Refusal {
    // The number by which users know the refusal. It and the text are written out: an enum whose variants carry values has no numbers to cast, and no derive states a text.
    pub fn number(self) -> u8
        ensures { result ≡ (row self).number }
    {
        match self {
            Refusal::Size => 12,
            Refusal::Element => 13,
            Refusal::Cycle(_, _) => 14,
            Refusal::NoJoin(_, _) => 15,
            Refusal::NoMeet(_, _) => 16,
        }
    }
}

// The number, and behind it the values that the refusal returns.
impl fmt::Display for Refusal {
    ghost output = { λ r. Some (text (row r)) };

    fn fmt<W: fmt::Write>(&self, f: &mut fmt::Formatter<W>) -> fmt::Result {
        let number = self.number();
        match self {
            Refusal::Size | Refusal::Element => write!(f, "{number}"),
            Refusal::Cycle(a, b) | Refusal::NoJoin(a, b) | Refusal::NoMeet(a, b) => {
                write!(f, "{number} {a} {b}")
            }
        }
    }
}

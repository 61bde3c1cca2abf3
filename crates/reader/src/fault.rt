// Why a text is not read: the cause, the place and the layer that found it.
ghost use Rattle.std.specs.Prelude.{◌≡◌, Some};
ghost use Rattle.reader.specs.Faults.{row, layer_text, text};

use std::fmt;

#[derive(Clone, Copy, PartialEq, Eq, Debug)]
pub enum Cause {
    // A byte starts no token.
    NoToken = 1,
    // A number has a needless leading zero, or three or more digits.
    BadNumber = 2,
    // The text ends before the term is complete.
    Unfinished = 3,
    // A token stands where another is due.
    Misplaced = 4,
    // A seventeenth bracket opens.
    TooDeep = 5,
    // A list closes with fewer than two terms.
    TooShort = 6,
    // A token follows the term.
    Trailing = 7,
    // A node is new, and 60 are there.
    Full = 8,
}

#[derive(Clone, Copy, PartialEq, Eq, Debug)]
pub enum Layer {
    Cutter,
    Reader,
    Sheet,
}

#[derive(Clone, Copy, PartialEq, Eq, Debug)]
pub struct Fault {
    pub cause: Cause,
    pub place: usize,
    pub layer: Layer,
}

impl Layer {
    // A fault that this layer finds.
    pub(crate) fn fault(self, cause: Cause, place: usize) -> Fault
        ensures { result ≡ record { cause = cause; place = place; layer = self } }
    {
        Fault {
            cause,
            place,
            layer: self,
        }
    }
}

impl Fault {
    // The number by which users know the fault.
    pub fn number(self) -> u8
        ensures { result ≡ (row self).number }
    {
        self.cause as u8
    }
}

impl fmt::Display for Layer {
    ghost output = { λ l. Some (layer_text l) };

    fn fmt<W: fmt::Write>(&self, f: &mut fmt::Formatter<W>) -> fmt::Result {
        match self {
            Layer::Cutter => f.write_str("cutter"),
            Layer::Reader => f.write_str("reader"),
            Layer::Sheet => f.write_str("sheet"),
        }
    }
}

// The number, the place and the layer.
impl fmt::Display for Fault {
    ghost output = { λ x. Some (text (row x)) };

    fn fmt<W: fmt::Write>(&self, f: &mut fmt::Formatter<W>) -> fmt::Result {
        let number = self.number();
        let place = self.place;
        let layer = self.layer;
        write!(f, "{number} at {place} in {layer}")
    }
}

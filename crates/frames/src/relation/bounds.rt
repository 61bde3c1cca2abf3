// Reading a relation: its size, what is below what, and greatest lower bounds.
// A method with `up` looks at the relation from below, or from above where `up`: then what it says of meets it says of joins.
// `up` is a bool, since the definitions and a frame's ghost field `complete` speak of it as one.
ghost use Rattle.std.specs.Prelude.{◌≡◌, ◌<◌, false};
ghost use Rattle.frames.specs.Order.{le, follows, best, bound};

use crate::pairs::place;
use crate::relation::Relation;

impl Relation {
    // How many elements there are.
    pub(crate) fn size(self) -> u8
        ensures { result ≡ self.size }
    {
        self.size
    }

    // Whether a is below b, for numbers below 8. For others it reads some bit: a test of pairs may be called for any
    // numbers, so there is no `requires`, and the clauses below speak of numbers below 8.
    #[tactic(auto, using(crate::proofs::Words::bit_read), unfolding(crate::specs::Order::le))]
    pub(crate) fn leq(self, a: u8, b: u8) -> bool
        ensures { a < 8 → b < 8 → result ≡ le self.word false a b }
    {
        self.word.wrapping_shr(place(a, b)) % 2 == 1
    }

    // Whether a is below b, or above it where `up`.
    #[tactic(auto, unfolding(crate::specs::Order::le))]
    fn faces(self, up: bool, a: u8, b: u8) -> bool
        ensures { a < 8 → b < 8 → result ≡ le self.word up a b }
    {
        if up { self.leq(b, a) } else { self.leq(a, b) }
    }

    // Whether d, if it is below a and b, is below c.
    fn stays_below(self, up: bool, a: u8, b: u8, c: u8, d: u8) -> bool
        ensures { a < 8 → b < 8 → c < 8 → d < 8 → result ≡ follows self.word up a b c d }
    {
        !self.faces(up, d, a) || !self.faces(up, d, b) || self.faces(up, d, c)
    }

    // Whether c is the greatest lower bound of a and b.
    fn is_best(self, up: bool, a: u8, b: u8, c: u8) -> bool
        ensures { a < 8 → b < 8 → c < 8 → result ≡ best self.size self.word up a b c }
    {
        self.faces(up, c, a)
            && self.faces(up, c, b)
            && (0..self.size).all(|d| self.stays_below(up, a, b, c, d))
    }

    // The greatest lower bound of a and b.
    pub(crate) fn bound(self, up: bool, a: u8, b: u8) -> Option<u8>
        ensures { a < 8 → b < 8 → result ≡ bound self.size self.word up a b }
    {
        (0..self.size).find(|&c| self.is_best(up, a, b, c))
    }
}

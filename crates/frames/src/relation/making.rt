// Making relations, and putting pairs in them.
ghost use Rattle.std.specs.Prelude.{◌≡◌, ◌<◌, ◌≤◌, ◌+◌, ◌*◌, ◌^◌, ℕ, Bool, bit_or};
ghost use Rattle.frames.specs.Tests.{word, Says};
ghost use Rattle.frames.specs.View.{Made};

use crate::pairs::{place, word_of};
use crate::relation::Relation;

impl Relation {
    // The relation of the numbers below size that has no pairs.
    pub(crate) fn empty(size: u8) -> Relation
        requires some { 0 < size }
        requires few { size ≤ 8 }
        ensures size { result.size ≡ size }
        ensures word { result.word ≡ 0 }
    {
        Relation { size, word: 0 }
    }

    // The relation of the same elements that has the pairs that pass.
    pub(super) fn of_pairs<F: Fn(u8, u8) -> bool>(self, test: F) -> Relation
        requires { F.IsAlwaysCallable test }
        ensures { (says : ℕ → ℕ → Bool) → Says (F.post test) says → Made self (word says) result }
    {
        Relation {
            size: self.size,
            word: word_of(test),
        }
    }

    // Puts a below b.
    pub(crate) fn relate(&mut self, a: u8, b: u8)
        requires left { a < 8 }
        requires right { b < 8 }
        ensures { Made self.old (bit_or self.old.word (2 ^ (8 * a + b))) self.new }
    {
        self.word |= 1 << place(a, b);
    }
}

// Sets of up to 64 things, as words: the bit worth 2^k says that thing k is in the set.
ghost use Rattle.lattice.specs.Sets.{sets};
ghost use Rattle.lattice.specs.Words.{sets_laws};

use crate::lattice::Lattice;

#[derive(Clone, Copy)]
pub struct Sets;

impl Lattice for Sets {
    type Element = u64;

    ghost means = { λ _. sets };

    ghost laws = { λ x. sets_laws };

    fn admits(&self, _x: u64) -> bool {
        true
    }

    fn meet(&self, a: u64, b: u64) -> u64 {
        a & b
    }

    fn join(&self, a: u64, b: u64) -> u64 {
        a | b
    }

    fn below(&self, a: u64, b: u64) -> bool {
        self.meet(a, b) == a
    }
}

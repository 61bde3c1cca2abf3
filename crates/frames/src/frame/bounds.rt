// Frames as lattices.
ghost use Rattle.std.specs.Prelude.{◌≡◌, cond, false, Decides, nat_lt};
ghost use Rattle.lattice.specs.Answers.{Meets, Joins, Compares};
ghost use Rattle.frames.specs.Order.{bound_in, frame, inside, Greatest, Least, Orders};
ghost use Rattle.frames.specs.View.{frame_of};
ghost use Rattle.free_lattice.proofs.Bounds.{laws_of_bounded};
ghost use Rattle.frames.specs.Framing.{bounded};

use crate::frame::Frame;
use lattice::Lattice;

impl Frame {
    // How many elements there are.
    pub fn size(&self) -> u8
        ensures { result ≡ (frame_of self.now).size }
    {
        self.order.size()
    }

    // The meet of two elements, or their join where `up`; 0, if one of them is no element.
    fn bound(&self, up: bool, a: u8, b: u8) -> u8
        ensures { result ≡ cond (inside (frame_of self.now) a b) (bound_in self.now.order.size self.now.order.word up a b) 0 }
    {
        if self.admits(a) && self.admits(b) {
            self.order.bound(up, a, b).unwrap_or(0)
        } else {
            0
        }
    }
}

impl Lattice for Frame {
    type Element = u8;

    ghost means = { λ f. frame (frame_of f) };

    ghost laws = { λ x. laws_of_bounded (bounded x) };

    fn admits(&self, x: u8) -> bool
        ensures admits { Decides result ((frame (frame_of self.now)).admitted x) }
        ensures number { result ≡ nat_lt x (frame_of self.now).size }
    {
        x < self.order.size()
    }

    fn meet(&self, a: u8, b: u8) -> u8
        ensures meets { Meets (frame (frame_of self.now)) a b result }
        ensures greatest { Greatest (frame_of self.now) a b result }
        ensures others { inside (frame_of self.now) a b ≡ false → result ≡ 0 }
    {
        self.bound(false, a, b)
    }

    fn join(&self, a: u8, b: u8) -> u8
        ensures joins { Joins (frame (frame_of self.now)) a b result }
        ensures least { Least (frame_of self.now) a b result }
        ensures others { inside (frame_of self.now) a b ≡ false → result ≡ 0 }
    {
        self.bound(true, a, b)
    }

    #[tactic(auto, using(crate::specs::Framing::compares))]
    fn below(&self, a: u8, b: u8) -> bool
        ensures compares { Compares (frame (frame_of self.now)) a b result }
        ensures order { Orders (frame_of self.now) a b result }
        ensures others { inside (frame_of self.now) a b ≡ false → result ≡ false }
    {
        self.admits(a) && self.admits(b) && self.order.leq(a, b)
    }
}

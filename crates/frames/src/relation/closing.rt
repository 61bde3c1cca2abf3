// The order that lines make, and why an order is no lattice.
ghost use Rattle.std.specs.Prelude.{◌≡◌, ◌<◌, ℕ, Bool};
ghost use Rattle.std.specs.Result.{result_err};
ghost use Rattle.frames.specs.Tests.{first_pair, word, rising, Says};
ghost use Rattle.frames.specs.Closing.{begun, linked, closure, cyclic, gap, amiss};
ghost use Rattle.frames.specs.View.{Made};

use crate::pairs::first_pair;
use crate::refusal::Refusal;
use crate::relation::Relation;

impl Relation {
    // The lines, and each element below itself.
    fn begun(self) -> Relation
        ensures { Made self (word (begun self.size self.word)) result }
    {
        self.of_pairs(|a, b| a < self.size && b < self.size && (a == b || self.leq(a, b)))
    }

    // The relation with what goes by way of k.
    fn linked(self, k: u8) -> Relation
        ensures { k < 8 → Made self (word (linked self.word k)) result }
    {
        self.of_pairs(|a, b| self.leq(a, b) || (self.leq(a, k) && self.leq(k, b)))
    }

    // The order that the lines make.
    pub(crate) fn closure(self) -> Relation
        ensures { Made self (closure self.size self.word) result }
    {
        (0..self.size).fold(self.begun(), Relation::linked)
    }

    // The first two elements that pass, the smaller first.
    fn first_rising<F: Fn(u8, u8) -> bool>(self, test: F) -> Option<(u8, u8)>
        requires { F.IsAlwaysCallable test }
        ensures { (says : ℕ → ℕ → Bool) → Says (F.post test) says → result ≡ first_pair (rising self.size says) }
    {
        first_pair(|a, b| a < b && b < self.size && test(a, b))
    }

    // The first two elements that are below each other.
    fn first_cycle(self) -> Option<(u8, u8)>
        ensures { result ≡ first_pair (rising self.size (cyclic self.word)) }
    {
        self.first_rising(|a, b| self.leq(a, b) && self.leq(b, a))
    }

    // The first two elements that lack a join or a meet.
    fn first_gap(self) -> Option<(u8, u8)>
        ensures { result ≡ first_pair (rising self.size (gap self.size self.word)) }
    {
        self.first_rising(|a, b| {
            self.bound(true, a, b).is_none() || self.bound(false, a, b).is_none()
        })
    }

    // Refuses an order that is no lattice.
    #[tactic(auto, using(crate::specs::Finding::pair_small), unfolding(crate::specs::Closing::amiss))]
    pub(crate) fn check(self) -> Result<(), Refusal>
        ensures { result_err result ≡ amiss self.size self.word }
    {
        if let Some((a, b)) = self.first_cycle() {
            return Err(Refusal::Cycle(a, b));
        }
        match self.first_gap() {
            None => Ok(()),
            Some((a, b)) if self.bound(true, a, b).is_some() => Err(Refusal::NoMeet(a, b)),
            Some((a, b)) => Err(Refusal::NoJoin(a, b)),
        }
    }
}

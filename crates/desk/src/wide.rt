// Lattices for the numbers of a script, of up to 64 bits, by way of lattices whose elements have fewer bits.
ghost use Rattle.std.specs.Prelude.{◌≡◌, ℕ, ◌^◌, ◌<◌, OkIff, SomeIff};
ghost use Rattle.desk.specs.Wide.{Numbering, themselves, wide};
ghost use Rattle.desk.specs.WideLaws.{wide_laws};

use lattice::Lattice;
use std::num::TryFromIntError;

// Elements that are numbers below a bound.
pub(crate) trait Narrow: Copy + TryFrom<u64, Error = TryFromIntError> + Into<u64> {
    ghost numbers: { Numbering Self };

    ghost bound: { ℕ };

    ghost narrows: { (x : ℕ) (r : _) → Self.try_from_gives x r → OkIff r (x < bound) (numbers.element x) };

    ghost widens: { (e : Self) (x : ℕ) → Self.converts e x → x ≡ numbers.number e };
}

impl Narrow for u32 {
    ghost numbers = { themselves };

    ghost bound = { 2 ^ 32 };

    ghost narrows = { λ x r h. h };

    ghost widens = { λ e x h. h };
}

impl Narrow for u8 {
    ghost numbers = { themselves };

    ghost bound = { 2 ^ 8 };

    ghost narrows = { λ x r h. h };

    ghost widens = { λ e x h. h };
}

// A lattice that admits only numbers below the bound, for all numbers.
#[derive(Drop)]
pub(crate) struct Wide<L: Lattice>
where
    L::Element: Narrow,
{
    pub(crate) lattice: L,
    ghost bounded: { (x : ℕ) → (L.means lattice).admitted (L.Element.numbers.element x) → x < L.Element.bound },
}

// Two numbers as elements, if both are below the bound.
fn narrowed<E: Narrow>(a: u64, b: u64) -> Option<(E, E)>
    ensures { SomeIff result ((a < E.bound) × (b < E.bound)) (E.numbers.element a, E.numbers.element b) }
{
    Some((E::try_from(a).ok()?, E::try_from(b).ok()?))
}

impl<L: Lattice> Lattice for Wide<L>
where
    L::Element: Narrow,
{
    type Element = u64;

    ghost means = { λ w. wide L.Element.numbers (L.means w.lattice) };

    ghost laws = { λ w. wide_laws L.Element.numbers (L.means w.lattice) (L.laws w.lattice) };

    fn admits(&self, x: u64) -> bool {
        L::Element::try_from(x).is_ok_and(|x| self.lattice.admits(x))
    }

    fn meet(&self, a: u64, b: u64) -> u64 {
        narrowed(a, b).map_or(0, |(a, b)| self.lattice.meet(a, b).into())
    }

    fn join(&self, a: u64, b: u64) -> u64 {
        narrowed(a, b).map_or(0, |(a, b)| self.lattice.join(a, b).into())
    }

    fn below(&self, a: u64, b: u64) -> bool {
        narrowed(a, b).is_some_and(|(a, b)| self.lattice.below(a, b))
    }
}

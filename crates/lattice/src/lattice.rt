// The interface of a lattice. It refuses nothing: on elements that are not admitted meet, join and below answer anything.
ghost use Rattle.std.specs.Prelude.{Decides};
ghost use Rattle.free_lattice.specs.Lattices.{Meaning, Laws};
ghost use Rattle.lattice.specs.Answers.{Meets, Joins, Compares};

pub trait Lattice {
    type Element: Copy;

    // Which elements are admitted, and the meet and the join of any two of them.
    ghost means: { Self → Meaning Self.Element };

    fn admits(&self, x: Self::Element) -> bool
        ensures { Decides result ((means self.now).admitted x) };

    fn meet(&self, a: Self::Element, b: Self::Element) -> Self::Element
        ensures { Meets (means self.now) a b result };

    fn join(&self, a: Self::Element, b: Self::Element) -> Self::Element
        ensures { Joins (means self.now) a b result };

    fn below(&self, a: Self::Element, b: Self::Element) -> bool
        ensures { Compares (means self.now) a b result };

    // Whoever adds a lattice shows its laws.
    ghost laws: { (x : Self) → Laws (means x) };
}

// Lattices behind one interface, and the lattice of sets.
#![tactic(auto)]

mod lattice;
mod sets;

pub use lattice::Lattice;
pub use sets::Sets;

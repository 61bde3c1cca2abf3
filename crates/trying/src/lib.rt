// Trying an inequality of two nodes in a lattice that the user brings.
#![tactic(auto)]

mod refusal;
mod trying;

pub use refusal::Refusal;
pub use trying::try_in;

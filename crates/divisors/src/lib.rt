// The lattice of the divisors of a number.
#![tactic(auto)]

mod common;
mod divisors;
mod refusal;

pub use divisors::Divisors;
pub use refusal::Refusal;

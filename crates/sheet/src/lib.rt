// The sheet: terms as numbered nodes, and the pairs of nodes that are settled.
#![tactic(auto)]

mod node;
mod refusal;
mod sheet;

pub use node::{Node, Record};
pub use refusal::Refusal;
pub use sheet::Sheet;

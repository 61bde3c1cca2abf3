// The commands of a script: what a line asks for.
#![tactic(auto)]

mod command;
mod mistake;
mod slots;
mod trial;
mod verb;

pub use command::{Command, parse};
pub use mistake::Mistake;
pub use slots::slots_of;
pub use trial::{Site, Trial};
pub use verb::Verb;

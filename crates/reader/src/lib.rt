// Reading written terms onto a sheet.
#![tactic(auto)]

mod cutter;
mod fault;
mod name;
mod reader;
mod token;

pub use cutter::Cutter;
pub use fault::{Cause, Fault, Layer};
pub use name::variable;
pub use reader::read;
pub use token::{Kind, Token};

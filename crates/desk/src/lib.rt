// The desk that a script works on: a sheet, a draft and a frame, what each command does to them, and what a script answers.
#![tactic(auto)]

mod answer;
mod desk;
mod script;
mod wide;

pub use answer::{Answer, Error, Reply, Tried};
pub use desk::Desk;
pub use script::transcribe;

// The worksheet with the sheet alone: reads a script of commands, and writes an answer line for each.
#![tactic(auto)]

mod script;

use script::Worksheet;
use std::process::ExitCode;

fn main(rt: HostRuntime) -> ExitCode {
    program::run::<Worksheet>(&rt, "worksheet [FILE]")
}

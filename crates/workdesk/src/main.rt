// The worksheet with trials in lattices: reads a script of commands, and writes an answer line for each.
#![tactic(auto)]

mod script;

use script::Workdesk;
use std::process::ExitCode;

fn main(rt: HostRuntime) -> ExitCode {
    program::run::<Workdesk>(&rt, "workdesk [FILE]")
}

// A line that is no command of the program, and the text that says so.
ghost use Rattle.std.specs.Prelude.{Some};
ghost use Rattle.command.specs.Mistakes.{mistake_text};

use crate::verb::Verb;
use std::fmt;

// A command in no form of its own, or no command that there is.
#[derive(Clone, Copy, PartialEq, Eq, Debug)]
pub enum Mistake {
    Misused(Verb),
    Unknown,
}

impl fmt::Display for Mistake {
    ghost output = { λ m. Some (mistake_text m) };

    fn fmt<W: fmt::Write>(&self, f: &mut fmt::Formatter<W>) -> fmt::Result {
        match self {
            Mistake::Misused(verb) => write!(f, "usage: {verb}"),
            Mistake::Unknown => f.write_str("unknown command"),
        }
    }
}

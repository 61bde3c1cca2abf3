// What a script answers to a program that has all verbs.
ghost use Rattle.std.specs.Prelude.{◌≡◌, IfOk, string_bytes};
ghost use Rattle.text.specs.Lines.{lines_of};
ghost use Rattle.command.specs.Verbs.{all};
ghost use Rattle.desk.specs.Desks.{cleared};
ghost use Rattle.desk.specs.Scripts.{transcript};

use command::Verb;
use program::Program;
use std::alloc::{AllocError, Global};

pub struct Workdesk;

impl Program for Workdesk {
    ghost answers = { λ script. transcript all cleared (lines_of script) };

    // The answers of a whole script, which begins on a cleared desk, one to a line.
    fn transcribe(heap: Global, script: &[u8]) -> Result<String, AllocError>
        ensures { IfOk result (λ s. string_bytes s ≡ transcript all cleared (lines_of script.now)) }
    {
        desk::transcribe(heap, &Verb::ALL, script)
    }
}

// What a script answers to a program that has the sheet alone.
ghost use Rattle.std.specs.Prelude.{◌≡◌, IfOk, string_bytes};
ghost use Rattle.sheet.specs.State.{blank};
ghost use Rattle.text.specs.Lines.{lines_of};
ghost use Rattle.worksheet.specs.Scripts.{transcript};

use command::Verb;
use program::Program;
use std::alloc::{AllocError, Global};

const VERBS: [Verb; 3] = [Verb::Enter, Verb::Read, Verb::Blank];

pub struct Worksheet;

impl Program for Worksheet {
    ghost answers = { λ script. transcript blank (lines_of script) };

    // The answers of a whole script, which begins on a blank sheet, one to a line.
    fn transcribe(heap: Global, script: &[u8]) -> Result<String, AllocError>
        ensures { IfOk result (λ s. string_bytes s ≡ transcript blank (lines_of script.now)) }
    {
        desk::transcribe(heap, &VERBS, script)
    }
}

// What a script answers, line by line, on a desk.
ghost use Rattle.std.specs.Prelude.{◌≡◌, IfOk, string_bytes};
ghost use Rattle.std.specs.Option.{option_map};
ghost use Rattle.text.specs.Lines.{lines_of};
ghost use Rattle.desk.specs.Answers.{replied};
ghost use Rattle.desk.specs.Desks.{cleared};
ghost use Rattle.desk.specs.Scripts.{line_step, transcript};
ghost use Rattle.desk.specs.View.{desk_of};

use crate::answer::{Error, Reply};
use crate::desk::Desk;
use command::{Verb, parse};
use std::alloc::{AllocError, Global};
use text::Lines;

// What a line answers: nothing, if it is empty or a comment.
fn answer(
    heap: Global,
    desk: &mut Desk,
    verbs: &[Verb],
    line: &[u8],
) -> Result<Option<Reply>, AllocError>
    ensures { IfOk result (λ o. (desk_of desk.new, option_map replied o) ≡ line_step verbs.now (desk_of desk.old) line.now) }
{
    match parse(verbs, line) {
        Ok(None) => Ok(None),
        Ok(Some(command)) => Ok(Some(desk.call(heap, command)?)),
        Err(mistake) => Ok(Some(Err(Error::from(mistake)))),
    }
}

// The answers of a whole script to a program with these verbs, one to a line. It begins on a cleared desk.
pub fn transcribe(heap: Global, verbs: &[Verb], script: &[u8]) -> Result<String, AllocError>
    ensures { IfOk result (λ s. string_bytes s ≡ transcript verbs.now cleared (lines_of script.now)) }
{
    let mut desk = Desk::new(heap)?;
    let mut out = String::new(heap);
    for line in Lines::new(script) {
        match answer(heap, &mut desk, verbs, line)? {
            None => {}
            Some(Ok(answer)) => out.writeln(answer)?,
            Some(Err(error)) => out.writeln(error)?,
        }
    }
    Ok(out)
}

// The commands, and what a line of a script asks for.
ghost use Rattle.std.specs.Prelude.{◌≡◌, drop};
ghost use Rattle.std.specs.Option.{option_map};
ghost use Rattle.text.specs.Words.{words_of};
ghost use Rattle.command.specs.Commands.{node_of, blanks, closes, alone, call_of, spoken, asked, called, heard, meant};

use crate::mistake::Mistake;
use crate::trial::{Trial, trial_of};
use crate::verb::{Verb, verb_of};
use sheet::Node;
use text::{no_words, one_number, split_word, two_numbers};

#[derive(Clone, Copy)]
pub enum Command<'a> {
    Enter(Node),
    Read(&'a [u8]),
    Blank,
    Draft(u64),
    // a is below b
    Line(u64, u64),
    Close,
    Try(Trial<'a>),
}

// The node that the words of `enter` name: CODE, meet A B or join A B.
fn node(words: &[u8]) -> Option<Node>
    ensures { result ≡ node_of (words_of words.now) }
{
    let (first, rest) = split_word(words)?;
    match first {
        b"meet" => two_numbers(rest).map(|(a, b)| Node::Meet(a as usize, b as usize)),
        b"join" => two_numbers(rest).map(|(a, b)| Node::Join(a as usize, b as usize)),
        _ => one_number(words).map(Node::Variable),
    }
}

// The text of `read`: what stands behind the word and one space, byte for byte.
fn text(behind: &[u8]) -> &[u8]
    ensures { result.now ≡ drop 1 behind.now }
{
    behind.get(1..).unwrap_or(behind)
}

// A command that takes no words.
fn alone<'a>(command: Command<'a>, words: &[u8]) -> Option<Command<'a>>
    ensures { option_map called result ≡ alone (called command.entry) (words_of words.now) }
{
    no_words(words).then_some(command)
}

// The command of a verb, with what stands behind it. `Some(..?)` and no `map`, whose result with a lifetime gets no proof.
fn command_of(verb: Verb, behind: &[u8]) -> Option<Command<'_>>
    ensures { option_map called result ≡ call_of verb behind.now }
{
    match verb {
        Verb::Enter => Some(Command::Enter(node(behind)?)),
        Verb::Read => Some(Command::Read(text(behind))),
        Verb::Blank => alone(Command::Blank, behind),
        Verb::Draft => Some(Command::Draft(one_number(behind)?)),
        Verb::Line => {
            let (a, b) = two_numbers(behind)?;
            Some(Command::Line(a, b))
        }
        Verb::Close => alone(Command::Close, behind),
        Verb::Try => Some(Command::Try(trial_of(behind)?)),
    }
}

// The command of a line that is neither empty nor a comment.
fn speak<'a>(verbs: &[Verb], line: &'a [u8]) -> Result<Command<'a>, Mistake>
    ensures { heard result ≡ spoken verbs.now line.now }
{
    let (word, behind) = split_word(line).ok_or(Mistake::Unknown)?;
    let verb = verb_of(verbs, word).ok_or(Mistake::Unknown)?;
    command_of(verb, behind).ok_or(Mistake::Misused(verb))
}

// What a line asks for, in a program that has these verbs: nothing, if it is empty or a comment. A comment's first
// byte is #.
pub fn parse<'a>(verbs: &[Verb], line: &'a [u8]) -> Result<Option<Command<'a>>, Mistake>
    ensures { meant result ≡ asked verbs.now line.now }
{
    match line {
        [] | [b'#', ..] => Ok(None),
        _ => Ok(Some(speak(verbs, line)?)),
    }
}

// The first words of the commands, and the forms of the commands.
ghost use Rattle.std.specs.Prelude.{◌≡◌, Some};
ghost use Rattle.command.specs.Verbs.{word, verb_of, form};

use std::fmt;
use text::is;

#[derive(Clone, Copy, PartialEq, Eq, Debug)]
pub enum Verb {
    Enter,
    Read,
    Blank,
    Draft,
    Line,
    Close,
    Try,
}

impl Verb {
    pub const ALL: [Verb; 7] = [
        Verb::Enter,
        Verb::Read,
        Verb::Blank,
        Verb::Draft,
        Verb::Line,
        Verb::Close,
        Verb::Try,
    ];

    // The first word of the command.
    pub fn word(self) -> &'static str
        ensures { result.now ≡ word self }
    {
        match self {
            Verb::Enter => "enter",
            Verb::Read => "read",
            Verb::Blank => "blank",
            Verb::Draft => "draft",
            Verb::Line => "line",
            Verb::Close => "close",
            Verb::Try => "try",
        }
    }
}

// The first of the verbs with this word.
pub(crate) fn verb_of(verbs: &[Verb], word: &[u8]) -> Option<Verb>
    ensures { result ≡ verb_of verbs.now word.now }
{
    verbs.iter().copied().find(|verb| is(word, verb.word()))
}

// The form of the command.
impl fmt::Display for Verb {
    ghost output = { λ v. Some (form v) };

    fn fmt<W: fmt::Write>(&self, f: &mut fmt::Formatter<W>) -> fmt::Result {
        f.write_str(match self {
            Verb::Enter => "enter CODE | enter meet A B | enter join A B",
            Verb::Read => "read TEXT",
            Verb::Blank => "blank",
            Verb::Draft => "draft N",
            Verb::Line => "line A B",
            Verb::Close => "close",
            Verb::Try => "try sets U V SLOTS | try divisors D U V SLOTS | try frame U V SLOTS",
        })
    }
}

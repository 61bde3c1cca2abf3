// What a line of a script is granted, or why it is granted nothing, and the texts that say so.
ghost use Rattle.std.specs.Prelude.{◌≡◌, Some};
ghost use Rattle.desk.specs.declared.answer.Error.TheVariants as error;
ghost use Rattle.desk.specs.Answers.{answered, erred, tried_text, reply_text};

use command::Mistake;
use reader::Fault;
use std::fmt;

// Whether the inequality holds, and the slots that the trial left. They are left either way, so this is no Option.
#[derive(Drop)]
pub struct Tried {
    pub holds: bool,
    pub slots: Vec<u64>,
}

// What was granted.
#[derive(Drop)]
pub enum Answer {
    Node(usize),
    Blank,
    Draft(u64),
    Line(u64, u64),
    Frame(u8),
    Tried(Tried),
}

// Why nothing was granted.
#[derive(Clone, Copy)]
pub enum Error {
    Sheet(sheet::Refusal),
    Divisors(divisors::Refusal),
    Frames(frames::Refusal),
    Trying(trying::Refusal),
    Fault(Fault),
    NoDraft,
    NoFrame,
    Mistake(Mistake),
}

// What a line is answered.
pub type Reply = Result<Answer, Error>;

// The conversions are written out, since derived ones would have no contract.
impl From<sheet::Refusal> for Error {
    ghost from_gives = { λ r e. e ≡ error.Sheet r };

    fn from(refusal: sheet::Refusal) -> Self {
        Self::Sheet(refusal)
    }
}

impl From<divisors::Refusal> for Error {
    ghost from_gives = { λ r e. e ≡ error.Divisors r };

    fn from(refusal: divisors::Refusal) -> Self {
        Self::Divisors(refusal)
    }
}

impl From<frames::Refusal> for Error {
    ghost from_gives = { λ r e. e ≡ error.Frames r };

    fn from(refusal: frames::Refusal) -> Self {
        Self::Frames(refusal)
    }
}

impl From<trying::Refusal> for Error {
    ghost from_gives = { λ r e. e ≡ error.Trying r };

    fn from(refusal: trying::Refusal) -> Self {
        Self::Trying(refusal)
    }
}

impl From<Fault> for Error {
    ghost from_gives = { λ r e. e ≡ error.Fault r };

    fn from(fault: Fault) -> Self {
        Self::Fault(fault)
    }
}

impl From<Mistake> for Error {
    ghost from_gives = { λ m e. e ≡ error.Mistake m };

    fn from(mistake: Mistake) -> Self {
        Self::Mistake(mistake)
    }
}

impl fmt::Display for Tried {
    ghost output = { λ t. Some (tried_text t.holds t.slots.items) };

    fn fmt<W: fmt::Write>(&self, f: &mut fmt::Formatter<W>) -> fmt::Result {
        f.write_str(if self.holds {
            "holds slots"
        } else {
            "fails slots"
        })?;
        for slot in &self.slots {
            write!(f, " {slot}")?;
        }
        Ok(())
    }
}

impl fmt::Display for Answer {
    ghost output = { λ a. Some (reply_text (answered a)) };

    fn fmt<W: fmt::Write>(&self, f: &mut fmt::Formatter<W>) -> fmt::Result {
        match self {
            Answer::Node(k) => write!(f, "node {k}"),
            Answer::Blank => f.write_str("blank"),
            Answer::Draft(n) => write!(f, "draft {n}"),
            Answer::Line(a, b) => write!(f, "line {a} {b}"),
            Answer::Frame(n) => write!(f, "frame {n}"),
            Answer::Tried(tried) => write!(f, "{tried}"),
        }
    }
}

impl fmt::Display for Error {
    ghost output = { λ e. Some (reply_text (erred e)) };

    fn fmt<W: fmt::Write>(&self, f: &mut fmt::Formatter<W>) -> fmt::Result {
        match self {
            Error::Sheet(refusal) => write!(f, "refused {refusal}"),
            Error::Divisors(refusal) => write!(f, "refused {refusal}"),
            Error::Frames(refusal) => write!(f, "refused {refusal}"),
            Error::Trying(refusal) => write!(f, "refused {refusal}"),
            Error::Fault(fault) => write!(f, "refused {fault}"),
            Error::NoDraft => f.write_str("no draft"),
            Error::NoFrame => f.write_str("no frame"),
            Error::Mistake(mistake) => write!(f, "{mistake}"),
        }
    }
}

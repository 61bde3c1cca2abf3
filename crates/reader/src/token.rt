// The tokens of a written term.

#[derive(Clone, Copy, PartialEq, Eq, Debug)]
pub enum Kind {
    Open,
    Close,
    Plus,
    Star,
    // A variable by its code.
    Variable(u64),
}

// A token and the offset of its first byte.
#[derive(Clone, Copy, PartialEq, Eq, Debug)]
pub struct Token {
    pub kind: Kind,
    pub place: usize,
}

// The pieces of a text, one after the other: the words of a line, the lines of a script.
ghost use Rattle.std.specs.Prelude.{◌≡◌, ℕ, List, length};
ghost use Rattle.std.specs.Iterator.{at_most};
ghost use Rattle.std.specs.Map.Iter.{TakesFirst, deref};
ghost use Rattle.std.specs.Option.{option_map};
ghost use Rattle.text.specs.Words.{words_of, spread, pointed};
ghost use Rattle.text.specs.Lines.{lines_of};

use crate::lines::split_line;
use crate::words::split_word;
use std::marker::{Model, PhantomData};

// A kind of piece that a text falls into.
pub trait Piece {
    ghost pieces_of: { List ℕ → List (List ℕ) };

    // The first piece of a text, and what stands behind it.
    fn split(text: &[u8]) -> Option<(&[u8], &[u8])>
        ensures { pieces_of text.now ≡ spread pieces_of (option_map pointed result) };
}

// A word of a line.
pub struct Word;

impl Piece for Word {
    ghost pieces_of = { words_of };

    fn split(text: &[u8]) -> Option<(&[u8], &[u8])> {
        split_word(text)
    }
}

// A line of a script.
pub struct Line;

impl Piece for Line {
    ghost pieces_of = { lines_of };

    fn split(text: &[u8]) -> Option<(&[u8], &[u8])> {
        split_line(text)
    }
}

// The pieces of a text that are left, in order.
#[derive(Drop)]
pub struct Pieces<'a, P: Piece> {
    rest: &'a [u8],
    kind: PhantomData<P>,
}

impl<'a, P: Piece> Model for Pieces<'a, P> {
    ghost Value = { List (List ℕ) };

    ghost view = { λ it. P.pieces_of it.rest.now };
}

// The words of a line.
pub type Words<'a> = Pieces<'a, Word>;

// The lines of a script.
pub type Lines<'a> = Pieces<'a, Line>;

impl<'a, P: Piece> Pieces<'a, P> {
    pub fn new(text: &'a [u8]) -> Pieces<'a, P>
        ensures { result ≡ P.pieces_of text.now }
    {
        Pieces {
            rest: text,
            kind: PhantomData,
        }
    }
}

impl<'a, P: Piece> Iterator for Pieces<'a, P> {
    type Item = &'a [u8];

    ghost next_gives = { TakesFirst deref };

    ghost remaining = { λ s. at_most (length s) };

    fn next(&mut self) -> Option<&'a [u8]> {
        let (piece, rest) = P::split(self.rest)?;
        self.rest = rest;
        Some(piece)
    }
}

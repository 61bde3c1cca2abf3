// The text of a script: its lines, their words, and the numbers that words write.
#![tactic(auto)]

mod lines;
mod pieces;
mod words;

pub use lines::split_line;
pub use pieces::{Lines, Words};
pub use words::{is, no_words, number, one_number, split_word, two_numbers, until};

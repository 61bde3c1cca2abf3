// Relations of numbers below 8: the lines of a draft, and the order of a frame.
ghost use Rattle.std.specs.Prelude.{◌<◌, ◌≤◌};

mod bounds;
mod closing;
mod making;

// The elements are the numbers below `size`, and the bit of `word` worth 2^(8a + b) says that a is below b.
// An order in one word is the subject's own form.
#[derive(Clone, Copy)]
pub(crate) struct Relation {
    size: u8,
    word: u64,
    ghost some: { 0 < size },
    ghost few: { size ≤ 8 },
}

// A draft: elements from 0 on, and lines that put one below another.
mod close;
mod line;

use crate::relation::Relation;

// In `lines` a is below b where there is a line from a up to b.
#[derive(Drop)]
pub struct Draft {
    lines: Relation,
}

// The sheet: a record for each node, in the order of their numbers, and what is always true of them.
ghost use Rattle.std.specs.Prelude.{◌≤◌, vec_len, vec_capacity};
ghost use Rattle.sheet.specs.Nodes.{Grounded, Distinct};
ghost use Rattle.sheet.specs.Records.{nodes, memo, Inside};

use crate::node::Record;

mod enter;
mod keep;

// The most nodes that a sheet holds.
pub const MOST: usize = 60;

// Clauses read it by `state`, as no Model could: a model's value is data, and the settled pairs are a function.
#[derive(Drop)]
pub struct Sheet {
    records: Vec<Record>,
    ghost few: { vec_len records ≤ 60 },
    ghost room: { 60 ≤ vec_capacity records },
    ghost grounded: { Grounded (nodes records.items) },
    ghost distinct: { Distinct (nodes records.items) },
    ghost inside: { Inside (vec_len records) (memo records.items) },
}

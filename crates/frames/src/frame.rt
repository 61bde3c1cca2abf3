// A frame: elements from 0 on, with an order that makes them a lattice.
ghost use Rattle.frames.specs.Order.{Reflexive, Transitive, Antisymmetric, Complete};

mod bounds;

use crate::relation::Relation;

#[derive(Clone, Copy)]
pub struct Frame {
    pub(crate) order: Relation,
    ghost reflexive: { Reflexive order.size order.word },
    ghost transitive: { Transitive order.size order.word },
    ghost antisymmetric: { Antisymmetric order.size order.word },
    ghost complete: { Complete order.size order.word },
}

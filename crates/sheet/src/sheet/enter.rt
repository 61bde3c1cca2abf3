// A blank sheet, and entering nodes on it.
ghost use Rattle.std.specs.Prelude.{◌≡◌, IfOk};
ghost use Rattle.std.specs.List.{slice_get};
ghost use Rattle.sheet.specs.Nodes.{find};
ghost use Rattle.sheet.specs.Refused.{told};
ghost use Rattle.sheet.specs.State.{blank, count};
ghost use Rattle.sheet.specs.Enter.{entering, judged, Entered};
ghost use Rattle.sheet.specs.View.{state};

use crate::node::{Node, Record};
use crate::refusal::Refusal;
use crate::sheet::{MOST, Sheet};
use std::alloc::{AllocError, Global};

// The largest code of a variable, that of z99.
const LAST: u64 = 2625;

impl Sheet {
    // A sheet with no nodes and room for all that it may get, so that no later call allocates.
    pub fn blank(heap: Global) -> Result<Sheet, AllocError>
        ensures { IfOk result (λ s. state s ≡ blank) }
    {
        let records = Vec::with_capacity(heap, MOST)?;
        Ok(Sheet { records })
    }

    // How many nodes there are.
    pub fn count(&self) -> usize
        ensures { result ≡ count (state self.now) }
    {
        self.records.len()
    }

    fn judge(&self, node: Node) -> Result<(), Refusal>
        ensures { told result ≡ judged (count (state self.now)) node }
    {
        match node {
            Node::Variable(code) if code > LAST => Err(Refusal::BadCode),
            Node::Variable(_) => Ok(()),
            Node::Meet(a, b) | Node::Join(a, b) => {
                self.node(a).ok_or(Refusal::NoNode(a))?;
                self.node(b).ok_or(Refusal::NoNode(b))?;
                Ok(())
            }
        }
    }

    // The node of a number.
    pub fn node(&self, k: usize) -> Option<Node>
        ensures { result ≡ slice_get (state self.now).nodes k }
    {
        self.records.get(k).map(Record::node)
    }

    // The number of a node that is there.
    pub fn find(&self, node: Node) -> Option<usize>
        ensures { result ≡ find (state self.now).nodes node }
    {
        self.records.iter().position(|record| record.node() == node)
    }

    // The number of a node: as it was, where it is there, and else the next one.
    pub fn enter(&mut self, node: Node) -> Result<usize, Refusal>
        ensures does { (state self.new, told result) ≡ entering (state self.old) node }
        ensures law { IfOk result (λ k. Entered (state self.old).nodes node (state self.new).nodes k) }
    {
        self.judge(node)?;
        if let Some(k) = self.find(node) {
            return Ok(k);
        }
        let k = self.count();
        if k == MOST {
            return Err(Refusal::Full);
        }
        self.records.push_reserved(Record::new(node));
        Ok(k)
    }
}

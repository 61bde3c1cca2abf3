// A node, and the record that the sheet keeps of it.
ghost use Rattle.std.specs.Prelude.{◌≡◌, ◌<◌};
ghost use Rattle.sheet.specs.Records.{fresh, within};

// A variable by its code, or a meet or a join of two nodes by their numbers.
// Codes and numbers are as wide as a caller may write them: enter refuses those that there are not.
#[derive(Clone, Copy, PartialEq, Eq, Debug)]
pub enum Node {
    Variable(u64),
    Meet(usize, usize),
    Join(usize, usize),
}

// A node with its settled pairs: bit j of `settled` says that the pair of this node and node j is settled,
// and bit j of `affirmed` that its answer is yes. Words of bits are the subject's own form of these rows.
#[derive(Clone, Copy)]
pub struct Record {
    node: Node,
    settled: u64,
    affirmed: u64,
}

impl Record {
    // A node of which no pair is settled.
    pub(crate) fn new(node: Node) -> Record
        ensures { result ≡ fresh node }
    {
        Record {
            node,
            settled: 0,
            affirmed: 0,
        }
    }

    pub(crate) fn node(&self) -> Node
        ensures { result ≡ self.now.node }
    {
        self.node
    }

    // The record with its pairs with the first n nodes, and no others.
    pub(crate) fn within(self, n: usize) -> Record
        requires { n < 64 }
        ensures { result ≡ within n self }
    {
        let end = 1 << n;
        Record {
            node: self.node,
            settled: self.settled % end,
            affirmed: self.affirmed % end,
        }
    }
}

// Trying: the slots of the nodes are filled bottom up from those of the variables, and two of them compared.
// Slot k belongs to node k.
ghost use Rattle.std.specs.Prelude.{◌≡◌, ◌<◌, ◌≤◌, length, MatchBool, MatchOption};
ghost use Rattle.sheet.specs.Nodes.{node_at};
ghost use Rattle.sheet.specs.View.{nodes_of};
ghost use Rattle.trying.specs.Refused.{told};
ghost use Rattle.trying.specs.Trying.{checked, PartsBelow, Tried, Judged};

use crate::refusal::Refusal;
use lattice::Lattice;
use sheet::{Node, Sheet};

// Whether both nodes are there, and n slots reach up to the later one.
fn check(sheet: &Sheet, u: usize, v: usize, n: usize) -> Result<(), Refusal>
    ensures { told result ≡ checked (nodes_of sheet.now) u v n }
{
    sheet.node(u).ok_or(Refusal::NoNode(u))?;
    sheet.node(v).ok_or(Refusal::NoNode(v))?;
    if u.max(v) < n {
        Ok(())
    } else {
        Err(Refusal::FewSlots)
    }
}

// A trial, in a lattice, of the nodes below `end`.
#[derive(Drop)]
struct Trial<'a, L: Lattice> {
    lattice: &'a L,
    sheet: &'a Sheet,
    slots: &'a mut [L::Element],
    end: usize,
    ghost there: { end ≤ length (nodes_of sheet.now) },
    ghost room: { end ≤ length slots.now },
}

impl<'a, L: Lattice> Trial<'a, L> {
    ghost use Rattle.trying.specs.Trials.{nodes, NodeStrays, NodeReady, AllReady, FirstStray, Fills};

    // The node of a number that is there.
    fn node(&self, k: usize) -> Node
        requires { k < self.now.end }
        ensures is { result ≡ node_at (nodes self.now) k }
        ensures parts { PartsBelow k result }
    {
        self.sheet.node(k).unwrap()
    }

    // Whether node k is a variable whose slot the lattice does not admit.
    fn strays(&self, k: usize) -> bool
        requires { k < self.now.end }
        ensures { MatchBool result (NodeStrays self.now k) (NodeReady self.now k) }
    {
        matches!(self.node(k), Node::Variable(_)) && !self.lattice.admits(self.slots[k])
    }

    // The first variable that strays.
    fn stray(&self) -> Option<usize>
        ensures { MatchOption result (AllReady self.now) (FirstStray self.now) }
    {
        (0..self.end).find(|&k| self.strays(k))
    }

    // Fills the slots of the meets and joins, each from the slots of its parts.
    fn fill(&mut self)
        requires { AllReady self.old }
        ensures { Fills self.old.end self.old self.new }
    {
        // By index: slot k is written from others of the same slice.
        for k in 0..self.end {
            match self.node(k) {
                Node::Variable(_) => {}
                Node::Meet(a, b) => self.slots[k] = self.lattice.meet(self.slots[a], self.slots[b]),
                Node::Join(a, b) => self.slots[k] = self.lattice.join(self.slots[a], self.slots[b]),
            }
        }
    }
}

// Fills the slots up to the later of the two nodes from those of the variables, which the caller fills,
// and says whether slot u is below slot v. A refusal leaves all slots as they were.
pub fn try_in<L: Lattice>(
    lattice: &L,
    sheet: &Sheet,
    u: usize,
    v: usize,
    slots: &mut [L::Element],
) -> Result<bool, Refusal>
    ensures tried { Tried (L.means lattice.now) (nodes_of sheet.now) u v slots.old slots.new (told result) }
    ensures law { Judged (L.means lattice.now) (nodes_of sheet.now) u v slots.old slots.new (told result) }
{
    check(sheet, u, v, slots.len())?;
    let mut trial = Trial {
        lattice,
        sheet,
        slots,
        end: u.max(v) + 1,
    };
    if let Some(k) = trial.stray() {
        return Err(Refusal::Unadmitted(k));
    }
    trial.fill();
    Ok(lattice.below(slots[u], slots[v]))
}

// Beginning a draft, and drawing lines in it.
ghost use Rattle.std.specs.Prelude.{◌≡◌, ℕ, IfOk, OnOk};
ghost use Rattle.frames.specs.Refused.{told};
ghost use Rattle.frames.specs.Drafts.{beginning, lining};
ghost use Rattle.frames.specs.Laws.{Line, Lined};
ghost use Rattle.frames.specs.View.{draft_of, begun_of};

use crate::draft::Draft;
use crate::refusal::Refusal;
use crate::relation::Relation;

// The most elements of a draft.
const MOST: u64 = 8;

impl Draft {
    // A draft of n elements with no lines.
    #[tactic(auto, using(crate::proofs::Words::le_none))]
    pub fn begin(n: u64) -> Result<Draft, Refusal>
        ensures does { begun_of result ≡ beginning n }
        ensures law { IfOk result (λ d. (a b : ℕ) → Line (draft_of d) a b → ⊥) }
    {
        if n == 0 || n > MOST {
            return Err(Refusal::Size);
        }
        Ok(Draft {
            lines: Relation::empty(n as u8),
        })
    }

    // How many elements there are.
    pub fn size(&self) -> u8
        ensures { result ≡ (draft_of self.now).size }
    {
        self.lines.size()
    }

    // Puts a below b.
    pub fn line(&mut self, a: u64, b: u64) -> Result<(), Refusal>
        ensures does { (draft_of self.new, told result) ≡ lining (draft_of self.old) a b }
        ensures law { OnOk result (Lined (draft_of self.old) a b (draft_of self.new)) }
    {
        let size = u64::from(self.lines.size());
        if a >= size || b >= size {
            return Err(Refusal::Element);
        }
        self.lines.relate(a as u8, b as u8);
        Ok(())
    }
}

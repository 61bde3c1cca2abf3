// Closing a draft.
ghost use Rattle.std.specs.Prelude.{◌≡◌, Ok, Err};
ghost use Rattle.frames.specs.Closing.{closing};
ghost use Rattle.frames.specs.Laws.{Drawn, Reason};
ghost use Rattle.frames.specs.View.{draft_of, frame_of, closed_of};

use crate::draft::Draft;
use crate::frame::Frame;
use crate::refusal::Refusal;

impl Draft {
    // The frame in which a is below b where a chain of lines leads from a to b; or the draft as it was, if that is no lattice.
    #[tactic(auto, using(crate::proofs::Closing::reason_of))]
    pub fn close(self) -> Result<Frame, (Draft, Refusal)>
        ensures does { closed_of result ≡ closing (draft_of self) }
        ensures law { elim result [ Ok f ↦ Drawn (draft_of self) (frame_of f) | Err e ↦ Reason (draft_of self) e.1 ] }
    {
        let order = self.lines.closure();
        match order.check() {
            Ok(()) => Ok(Frame { order }),
            Err(refusal) => Err((self, refusal)),
        }
    }
}

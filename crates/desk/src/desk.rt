// The desk, and what each command does to it.
ghost use Rattle.std.specs.Prelude.{◌≡◌, ℕ, Bool, IfOk, MatchResult};
ghost use Rattle.sheet.specs.View.{nodes_of};
ghost use Rattle.command.specs.Commands.{called};
ghost use Rattle.command.specs.Trials.{trial_asked};
ghost use Rattle.desk.specs.Sites.{site, Tells};
ghost use Rattle.desk.specs.Answers.{replied};
ghost use Rattle.desk.specs.Desks.{cleared, entering, reading, drafting, relating, closing, tried_on, on_site, trying, step};
ghost use Rattle.desk.specs.View.{desk_of};

use crate::answer::{Answer, Error, Reply, Tried};
use crate::wide::Wide;
use command::{Command, Mistake, Site, Trial, Verb, slots_of};
use divisors::Divisors;
use frames::{Draft, Frame};
use lattice::{Lattice, Sets};
use reader::read;
use sheet::{Node, Sheet};
use std::alloc::{AllocError, Global};
use trying::try_in;

// The frame is the one that was closed last. Clauses read a desk by `desk_of`, as they read its sheet by `state`.
#[derive(Drop)]
pub struct Desk {
    sheet: Sheet,
    draft: Option<Draft>,
    frame: Option<Frame>,
}

// Tries u and v in a lattice of numbers.
fn tried<L: Lattice<Element = u64>>(
    lattice: &L,
    sheet: &Sheet,
    u: usize,
    v: usize,
    mut slots: Vec<u64>,
) -> Reply
    ensures { (test : ℕ → Bool) → Tells test (L.means lattice.now) → replied result ≡ tried_on (nodes_of sheet.now) u v slots.items (site (L.means lattice.now) test) }
{
    let holds = try_in(lattice, sheet, u, v, &mut slots)?;
    Ok(Answer::Tried(Tried { holds, slots }))
}

impl Desk {
    pub fn new(heap: Global) -> Result<Desk, AllocError>
        ensures { IfOk result (λ d. desk_of d ≡ cleared) }
    {
        Ok(Desk {
            sheet: Sheet::blank(heap)?,
            draft: None,
            frame: None,
        })
    }

    fn enter(&mut self, node: Node) -> Reply
        ensures { (desk_of self.new, replied result) ≡ entering (desk_of self.old) node }
    {
        Ok(Answer::Node(self.sheet.enter(node)?))
    }

    fn read(&mut self, text: &[u8]) -> Reply
        ensures { (desk_of self.new, replied result) ≡ reading (desk_of self.old) text.now }
    {
        Ok(Answer::Node(read(&mut self.sheet, text)?))
    }

    fn draft(&mut self, n: u64) -> Reply
        ensures { (desk_of self.new, replied result) ≡ drafting (desk_of self.old) n }
    {
        self.draft = Some(Draft::begin(n)?);
        Ok(Answer::Draft(n))
    }

    fn line(&mut self, a: u64, b: u64) -> Reply
        ensures { (desk_of self.new, replied result) ≡ relating (desk_of self.old) a b }
    {
        let draft = self.draft.as_mut().ok_or(Error::NoDraft)?;
        draft.line(a, b)?;
        Ok(Answer::Line(a, b))
    }

    // A draft that closes becomes the frame, and one that does not stays.
    fn close(&mut self) -> Reply
        ensures { (desk_of self.new, replied result) ≡ closing (desk_of self.old) }
    {
        let draft = self.draft.take().ok_or(Error::NoDraft)?;
        match draft.close() {
            Ok(frame) => {
                self.frame = Some(frame);
                Ok(Answer::Frame(frame.size()))
            }
            Err((draft, refusal)) => {
                self.draft = Some(draft);
                Err(Error::Frames(refusal))
            }
        }
    }

    // Tries u and v on the site that was named, if there is one.
    fn on_site(&self, site: Site, u: usize, v: usize, slots: Vec<u64>) -> Reply
        ensures { replied result ≡ on_site (desk_of self.now) (tried_on (nodes_of self.now.sheet) u v slots.items) site }
    {
        match site {
            Site::Sets => tried(&Sets, &self.sheet, u, v, slots),
            Site::Divisors(n) => {
                let lattice = Divisors::of(n)?;
                tried(&Wide { lattice }, &self.sheet, u, v, slots)
            }
            Site::Frame => {
                let lattice = self.frame.ok_or(Error::NoFrame)?;
                tried(&Wide { lattice }, &self.sheet, u, v, slots)
            }
        }
    }

    fn try_trial(&self, heap: Global, trial: Trial) -> Result<Reply, AllocError>
        ensures { IfOk result (λ r. replied r ≡ trying (desk_of self.now) (trial_asked trial.entry)) }
    {
        let Some(slots) = slots_of(heap, &self.sheet, trial.u.max(trial.v), trial.slots)? else {
            return Ok(Err(Error::Mistake(Mistake::Misused(Verb::Try))));
        };
        Ok(self.on_site(trial.site, trial.u, trial.v, slots))
    }

    // Makes the call that a command asks for. Only memory can run out on it, and then it leaves the desk as it was.
    pub fn call(&mut self, heap: Global, command: Command) -> Result<Reply, AllocError>
        ensures { MatchResult result (λ r. (desk_of self.new, replied r) ≡ step (desk_of self.old) (called command.entry)) (λ _. desk_of self.new ≡ desk_of self.old) }
    {
        Ok(match command {
            Command::Enter(node) => self.enter(node),
            Command::Read(text) => self.read(text),
            Command::Blank => {
                self.sheet.keep(0);
                Ok(Answer::Blank)
            }
            Command::Draft(n) => self.draft(n),
            Command::Line(a, b) => self.line(a, b),
            Command::Close => self.close(),
            Command::Try(trial) => self.try_trial(heap, trial)?,
        })
    }
}

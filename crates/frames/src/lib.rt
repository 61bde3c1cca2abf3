// Small lattices drawn by the user: drafts, and the frames that they close to.
#![tactic(auto)]

mod draft;
mod frame;
mod pairs;
mod refusal;
mod relation;

pub use draft::Draft;
pub use frame::Frame;
pub use refusal::Refusal;

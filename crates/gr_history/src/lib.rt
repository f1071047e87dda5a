//! The history of a run and what its objects hold: both are those of the plain memory.
#![tactic(auto)]

mod batches;
mod gathering;
mod histories;
mod laws;
mod marks;

pub use gathering::contents;
pub use histories::history;
pub use laws::runs_agree;

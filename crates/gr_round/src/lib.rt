//! Rounds on worker threads: a slice of each core side by side, then a meeting of all, until the run has an outcome.
#![tactic(auto)]

mod outcomes;
mod rounds;
mod running;

pub use gr_slice::{Gate, NoGate};
pub use outcomes::Outcome;
pub use rounds::round;
pub use running::{Ran, run};

//! What the tasks of an accepted program do next: in each state that a legal history reaches, each names a place, an
//! object of the right kind, a reducer or a task that there is.
#![tactic(auto)]

mod laws;

pub use laws::{actions_fit, states_are_reached};

//! Each event inner to a core of the machine as one outcome at that core, in the world without its clocks; and the entries
//! of the marks that it leaves.
#![tactic(auto)]

mod laws;

pub use laws::{events_are_outcomes, marks_follow};

//! Whole runs of the machine: the history of each is legal, and the world stands for the plain state after it.
#![tactic(auto)]

mod laws;

pub use laws::runs_stand;

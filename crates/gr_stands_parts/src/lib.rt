//! All parts of 'stands for' together, as one invariant of the machine's steps: under every schedule a run's history is
//! legal, and the machine stands for the plain memory after it.
#![tactic(auto)]

mod laws;

pub use laws::runs_are_histories;

//! Each run of the machine has a legal history, whatever its schedule, where its setup is one and its program can be run.
#![tactic(auto)]

mod laws;

pub use laws::{runs_are_given, runs_are_legal};

//! Run: what a ready task does at its next action, whichever that is, in a world that stands for a plain state.
#![tactic(auto)]

mod laws;

pub use laws::{calls_run, tasks_run};

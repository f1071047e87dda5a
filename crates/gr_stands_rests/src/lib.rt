//! Where a run has passed the root scope, each word of each vector is at the home of its position.
#![tactic(auto)]

mod laws;

pub use laws::{passed_runs_rest, runs_put_as_planned};

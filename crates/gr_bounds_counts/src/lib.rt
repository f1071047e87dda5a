//! The tasks of a scope that a core counts: they are at most as many as the steps of a run, above the indices of a loop.
#![tactic(auto)]

mod laws;

pub use laws::counts_grow;

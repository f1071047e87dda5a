//! Bounds: what grows by at most one with each step of a run is at most its start and the number of steps.
#![tactic(auto)]

mod laws;

pub use laws::measures_grow;

//! The ends of vectors: positions are at most as many as the steps of a run.
#![tactic(auto)]

mod laws;

pub use laws::tails_grow;

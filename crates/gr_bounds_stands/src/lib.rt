//! The part of bounds: what a run gives numbers to and counts is at most the number of its steps, and so fits its words.
#![tactic(auto)]

mod laws;

pub use laws::{bounds_stand, bounds_tell};

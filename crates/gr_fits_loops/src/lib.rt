//! What is known of loops in each state of the plain memory that a legal history reaches.
#![tactic(auto)]

mod laws;

pub use laws::loops_fit;

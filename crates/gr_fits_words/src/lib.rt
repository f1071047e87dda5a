//! All words of each state of the plain memory that a legal history reaches are below 2^64.
#![tactic(auto)]

mod laws;

pub use laws::words_fit;

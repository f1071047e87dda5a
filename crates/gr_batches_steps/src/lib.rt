//! Each piece of a step keeps the part of batches, where the other parts tell what they must.
#![tactic(auto)]

mod laws;

pub use laws::pieces_keep_batches;

//! The calls that wait on an object go off, as batches or as a group: this keeps the part of batches.
#![tactic(auto)]

mod laws;

pub use laws::closes_keep_batches;

//! Outcomes that leave entries of tasks in no batch, and have nothing else to do with batches, keep the part of batches.
#![tactic(auto)]

mod laws;

pub use laws::entries_leave_batches;

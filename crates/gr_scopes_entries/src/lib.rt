//! What the entries of marks do to the tree of a plain state: those of calls leave it, and calls are all that messages
//! of calls, batches and turns, and Closes, leave marks of.
#![tactic(auto)]

mod laws;

pub use laws::{calls_leave_trees, events_leave_calls};

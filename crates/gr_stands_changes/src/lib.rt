//! Outcomes that change one task in its slot, and outcomes that leave all tasks: each keeps words and calls.
#![tactic(auto)]

mod laws;

pub use laws::{changes_are_kept, quiet_messages_are_served};

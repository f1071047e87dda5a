//! Outcomes one after another in one event, where each keeps words and calls; and that each message in flight comes from a
//! core.
#![tactic(auto)]

mod laws;

pub use laws::{actions_follow, outcomes_follow, senders_stand};

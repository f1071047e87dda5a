//! Cores that send each other messages, for any kind of state, message, packet and mark: what is in flight, and what
//! a part sees of it.
#![tactic(auto)]

mod laws;

pub use laws::{messages_flow, parts_see};

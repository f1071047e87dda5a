//! Events that are not of a vector's turns leave these: each action of a task, each message but those that ask for its turn,
//! grant it and end it, and calls that go off on another object.
#![tactic(auto)]

mod laws;

pub use laws::{closes_leave_turns, messages_leave_turns, runs_leave_turns};

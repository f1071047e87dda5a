//! Events that are not of a vector's elements leave these: each action of a task, each message but those of its elements and
//! those that grant its turn, and calls that go off. None of their marks is a call on a vector.
#![tactic(auto)]

mod laws;

pub use laws::{closes_leave_words, messages_leave_words, runs_leave_words};

//! Calls that go off to be combined, and come back with their replies, in a world that stands for a plain state.
#![tactic(auto)]

mod laws;

pub use laws::{batches_come_back, calls_go_off};

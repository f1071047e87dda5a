//! The event Close: the calls that wait on an object go off, as batches or as a group that asks for a turn.
#![tactic(auto)]

mod batches;
mod closing;

pub use closing::close;

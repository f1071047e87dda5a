//! A turn is one of calls that wait for it: where its replies are those of the plain memory, each call has its own.
#![tactic(auto)]

mod laws;

pub use laws::turns_are_answered;

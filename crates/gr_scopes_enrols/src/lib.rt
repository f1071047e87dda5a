//! Cores that ask whether they may count in a scope, and the tasks that wait for that, in a world that stands for a
//! plain state: each event keeps the part of scopes.
#![tactic(auto)]

mod laws;

pub use laws::{enrolments_are_answered, enrolments_are_asked_for};

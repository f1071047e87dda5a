//! Tasks that are made, start, or open a scope, in a world that stands for a plain state: the entries are legal, and words
//! and calls stand for the state after them.
#![tactic(auto)]

mod laws;

pub use laws::{scopes_open, tasks_are_born};

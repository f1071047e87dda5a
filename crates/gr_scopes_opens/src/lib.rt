//! Scopes that are opened, and tasks that are made under them, in a world that stands for a plain state: each event
//! keeps the part of scopes.
#![tactic(auto)]

mod laws;

pub use laws::{scopes_open, tasks_spawn};

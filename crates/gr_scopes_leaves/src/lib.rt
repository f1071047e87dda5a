//! Tasks that have ended, cores that leave scopes, and tasks that pass them, in a world that stands for a plain state:
//! each event acts and keeps the part of scopes.
#![tactic(auto)]

mod laws;

pub use laws::{cores_leave, tasks_arrive, tasks_complete};

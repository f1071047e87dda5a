//! Suspended tasks: how one runs over code to its next action, and goes on after a reply.
#![tactic(auto)]

mod actions;
mod evaluation;
mod rows;
mod shared;
mod task;

pub use rows::task_rows;
pub use shared::tasks_are_shared;
pub use task::TaskState;

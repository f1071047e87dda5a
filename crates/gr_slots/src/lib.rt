//! The tasks of a core that are suspended in slots.
#![tactic(auto)]

mod awaiting;
mod shared;
mod slots;
mod task;

pub use shared::tasks_are_shared;
pub use slots::Slots;
pub use task::Task;

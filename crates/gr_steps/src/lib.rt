//! What a task does next: its statements and locals, and the action at which it stands.
#![tactic(auto)]

mod actions;
mod expressions;
mod listing;
mod locals;
mod running;
mod table;

pub use running::Running;
pub use table::{HeapRange, Table};

//! What each scope still waits for: the tasks that started on this core, and the active cores, at its home.
#![tactic(auto)]

mod by_scope;
mod counts;
mod laws;
mod masters;

pub use counts::{Enrol, LocalCount, LocalCounts, LocalLeft};
pub use laws::scopes_are_put;
pub use masters::{Master, Masters, Release, Waiter};

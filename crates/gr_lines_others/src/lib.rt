//! Events that are not of vectors leave the calls that wait on vectors.
#![tactic(auto)]

mod laws;

pub use laws::{closes_leave_lines, messages_leave_lines, tasks_leave_lines};

//! Each event keeps the calls that wait on vectors: they join, go off as groups, get turns and are answered.
#![tactic(auto)]

mod laws;

pub use laws::{calls_keep_lines, messages_keep_lines};

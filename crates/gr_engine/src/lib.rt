//! The run of a program on worker threads, and how it ended.
#![tactic(auto)]

mod ending;
mod making;
mod running;

pub use ending::{Ending, Ran, WorldEnd};
pub use running::run_program;

//! What a ready task, a message, the end of a turn and a Close do that is no matter of the part of work: they leave the
//! chunks and the questions of their core, and their entries leave what is left of each loop.
#![tactic(auto)]

mod laws;

pub use laws::{marks_leave_loops, rows_leave_work};

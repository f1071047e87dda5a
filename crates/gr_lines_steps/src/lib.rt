//! Pieces of steps keep calls that wait on vectors, and whose turn it is, where the other parts tell what they must; and so
//! each step of the machine does.
#![tactic(auto)]

mod laws;

pub use laws::{ends_are_answered, pieces_keep_both, pieces_keep_lines, pieces_keep_turns};

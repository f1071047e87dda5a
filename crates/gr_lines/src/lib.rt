//! The part of turns, of calls that wait on vectors: when what a core of the machine has of each vector, and the tasks
//! that wait for calls on it, are in order; and what an outcome at a core, a Ship and a Take do to that.
#![tactic(auto)]

mod laws;

pub use laws::{lines_are_kept, lines_stay, openings_have_lines};

//! Single calls, prints, ends and traps in a world that stands for a plain state: each acts, its mark is an entry that
//! the plain state takes, and words and calls stand for the state after it.
#![tactic(auto)]

mod laws;

pub use laws::{calls_stand, tasks_stand, units_stand};

//! When a world of the machine stands for a state of the plain memory, and what an outcome at a core, a Ship and a Take
//! do to that.
#![tactic(auto)]

mod laws;

pub use laws::{moves_keep_worlds, parts_are_kept, worlds_flow};

//! Outcomes that change many tasks in their slots, one after another.
#![tactic(auto)]

mod laws;

pub use laws::lists_are_kept;

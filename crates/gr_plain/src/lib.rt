//! The meaning of a program on one plain memory, as a machine that takes the entries of a history.
#![tactic(auto)]

mod laws;
mod opening;
mod plain;
mod plain_state;

pub use laws::{after_one_more, seven_is_printed};
pub use plain::{Plain, StepError};

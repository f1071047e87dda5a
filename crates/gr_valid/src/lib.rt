//! What holds of every state that a history leads to.
#![tactic(auto)]

mod laws;

pub use laws::{histories_are_valid, histories_end, states_stay_valid, work_is_direct};

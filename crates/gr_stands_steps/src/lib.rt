//! The steps of the machine, each with all that it does: words and calls are kept, where the other parts tell what they must.
#![tactic(auto)]

mod laws;

pub use laws::{outcomes_act, steps_stand, waiters_are_cores};

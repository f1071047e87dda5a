//! The clocks of a global run: they count steps, and so a run is not longer than its cores' clocks allow.
#![tactic(auto)]

mod laws;

pub use laws::{clocks_count_steps, runs_are_short};

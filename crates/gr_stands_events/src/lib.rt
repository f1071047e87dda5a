//! The events of the machine, outcome by outcome, as what happens to its world without clocks.
#![tactic(auto)]

mod laws;

pub use laws::{events_act, rows_make_events};

//! What the parts of 'stands for' say of events together: in no run does a message, a unit or a ready slot find nothing
//! to act on; and whoever waits for the end of a scope is released in the event in which the last core leaves it.
#![tactic(auto)]

mod laws;

pub use laws::{nothing_finds_nothing, released_at_once};

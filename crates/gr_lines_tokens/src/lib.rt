//! What events do to whose turn it is: a core asks for a turn, it is granted and ends, and calls go off as a group. Each
//! message of a turn finds something to act on, so no turn is lost.
#![tactic(auto)]

mod laws;

pub use laws::{events_keep_turns, tokens_are_served};

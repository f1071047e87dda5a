//! Replays a history text: the plain memory takes the entries that its lines name, one by one.
#![tactic(auto)]

mod division;
mod entries;
mod judging;
mod laws;

pub use division::divide;
pub use judging::{ReplayError, Replayed, replay};
pub use laws::{judged_once, legal_is_judged, written_names};

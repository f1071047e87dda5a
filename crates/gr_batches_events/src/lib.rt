//! Calls that join others, batches that come back, and events that have nothing to do with them: each keeps the part of
//! batches.
#![tactic(auto)]

mod laws;

pub use laws::{batches_come_back, batches_stay, calls_join};

//! Outcomes that leave the scopes of their core, in a world that stands for a plain state: calls, batches, turns and
//! traps keep the part of scopes.
#![tactic(auto)]

mod laws;

pub use laws::{calls_keep_scopes, scopes_stay_put, several_calls_keep_scopes, traps_keep_scopes};

//! The state of a core, and the outcomes that several of its events have.
#![tactic(auto)]

mod enabled;
mod gifts;
mod numbers;
mod opening;
mod shared;
mod spawning;
mod state;
mod steals;
mod waking;

pub use numbers::{counted, one_more};
pub use shared::states_are_shared;
pub use state::State;
pub use steals::Steals;

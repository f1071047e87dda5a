//! The calls on keys that wait to be combined at a core, and the batches of it that are under way.
#![tactic(auto)]

mod by_batch;
mod combining;
mod shared;

pub use combining::Combining;
pub use shared::combining_is_shared;

//! Calls on keys combined: calls that fold into one effect travel as one batch, and each gets its own reply.
#![tactic(auto)]

mod combiner;
mod folding;
mod group;
mod laws;
mod shared;
mod wakes;

pub use combiner::{Batch, Batches, Combiner, Held};
pub use laws::{batches_are_longest, batches_do_their_calls, each_call_is_kept, rows_of_batches};
pub use shared::combiners_are_shared;
pub use wakes::{Wakes, Woken, replies};

//! What lies at a core of all that is shared: words, what stands under keys, and the blocks of the heap.
#![tactic(auto)]

mod opening;
mod shard;
mod shared;
mod store;

pub use shard::{is_of_map, is_of_set};
pub use shared::stores_are_shared;
pub use store::Store;

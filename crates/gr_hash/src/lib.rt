//! The part of a set or of a map that one core keeps: what stands under its keys.
#![tactic(auto)]

mod map_shard;
mod set_shard;
mod shared;

pub use map_shard::MapShard;
pub use set_shard::SetShard;
pub use shared::shards_are_shared;

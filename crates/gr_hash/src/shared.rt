//! That the shards may be handed to other threads.
use crate::map_shard::MapShard;
use crate::set_shard::SetShard;

/// Takes what other threads may own and read.
fn share<T: Send + Sync>(value: &T) {
    let _ = value;
}

/// Both kinds of shards may be owned and read by other threads: a call of this function is proved.
pub fn shards_are_shared(set: &SetShard, map: &MapShard) {
    share(set);
    share(map);
}

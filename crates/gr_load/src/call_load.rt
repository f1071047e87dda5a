//! Loads of the calls that a core combines, and of the shards that their batches come to.
use gr_batch::{Batch, Combiner, Wakes, replies};
use gr_hash::{MapShard, SetShard};
use gr_lang::{Effect, Op, TaskId, WaitingCall};
use gr_reduce::Reducers;
use std::alloc::{AllocError, Global};

/// The reducer that adds.
const ADD: u64 = 0;

fn merge(slot: u64, key: u64) -> WaitingCall {
    WaitingCall {
        slot,
        id: TaskId {
            core: 0,
            number: slot,
        },
        op: Op::Merge {
            object: 0,
            reducer: ADD,
            key,
            word: slot,
        },
    }
}

/// The replies of a batch's calls, where nothing stood under their key.
fn woken(alloc: Global, batch: &Batch, reducers: &Reducers) -> Result<Wakes, AllocError> {
    replies(alloc, &batch.calls, None, reducers)
}

/// So many calls, on keys in turn, are joined, closed into batches, and answered.
pub fn calls(
    alloc: Global,
    count: u64,
    keys: u64,
    reducers: &Reducers,
) -> Result<String, AllocError> {
    let mut combiner = Combiner::new(alloc);
    for at in 0..count {
        let key = at % keys.max(1);
        combiner.join(key, merge(at, key))?;
    }
    let batches = combiner.close(alloc, reducers)?;
    let mut answered = 0u64;
    let mut first = 0u64;
    for batch in batches.as_slice() {
        let wakes = woken(alloc, batch, reducers)?;
        for wake in wakes.as_slice() {
            answered = answered.wrapping_add(1);
            first = first.wrapping_add(wake.reply.first);
        }
    }
    let made = batches.len();
    let left = combiner.len();
    format!(in alloc; "{made} batches, {answered} answered, {first} on an absent key, {left} left")
}

/// So many effects on keys in turn are applied to a shard of a map and to one of a set.
pub fn keys(
    alloc: Global,
    count: u64,
    keys: u64,
    reducers: &Reducers,
) -> Result<String, AllocError> {
    let mut map = MapShard::new(alloc);
    let mut set = SetShard::new(alloc);
    let mut held = 0u64;
    for at in 0..count {
        let key = at % keys.max(1);
        let fold = Effect::Fold {
            reducer: ADD,
            word: 1,
        };
        if map.apply(key, fold, reducers)?.is_some() {
            held = held.wrapping_add(1);
        }
        if set
            .apply(key, Effect::Present { word: 0 }, reducers)?
            .is_some()
        {
            held = held.wrapping_add(1);
        }
    }
    let pairs = map.sorted(alloc)?.len();
    let members = set.sorted(alloc)?.len();
    format!(in alloc; "{pairs} pairs, {members} members, {held} held before")
}

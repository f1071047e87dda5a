//! The parts of the objects that one core keeps.
ghost use Rattle.std.specs.Prelude.{◌≡◌, true, IfOk, OnOk};
ghost use Rattle.gr_lang.specs.Effects.{after};
ghost use Rattle.gr_view.specs.Places.{put};
ghost use Rattle.gr_hash.specs.Shards.{IsOfSet};
ghost use Rattle.gr_machine.specs.BatchServes.{is_of_map, is_of_set};
ghost use Rattle.gr_store.specs.Stores.{Lists};
ghost use Rattle.gr_store.specs.StoreView.{shards_of, under};

use gr_hash::{MapShard, SetShard};
use gr_lang::{Effect, Pairs};
use gr_reduce::Reducers;
use std::alloc::{AllocError, Global};

/// The part of an object that one core keeps.
#[derive(Drop)]
pub enum Shard {
    /// Of an object without keys nothing.
    Keyless,
    /// Keys of a set.
    Set(SetShard),
    /// Keys of a map with their words.
    Map(MapShard),
}

/// Whether calls on a set have such an effect: no reducer folds, and no word but 0 is put.
pub fn is_of_set(effect: Effect) -> bool
    ensures value { result ≡ is_of_set effect }
    ensures allowed { result ≡ true → IsOfSet effect }
{
    match effect {
        Effect::Present { word } => word == 0,
        Effect::Fold { .. } => false,
        Effect::Keep | Effect::Absent => true,
    }
}

/// Whether calls on a map have such an effect: where a reducer folds, it is one that there is.
pub fn is_of_map(effect: Effect) -> bool
    ensures { result ≡ is_of_map effect }
{
    match effect {
        Effect::Fold { reducer, .. } => reducer < 8,
        Effect::Keep | Effect::Present { .. } | Effect::Absent => true,
    }
}

impl Shard {
    /// Stores what an effect of calls makes of what stands under a key, and answers what stood there before. It is an
    /// error where there are no keys, or where the effect is none of calls on the object.
    fn apply(
        &mut self,
        key: u64,
        effect: Effect,
        reducers: &Reducers,
    ) -> Result<Option<u64>, AllocError>
        ensures before { IfOk result (λ before. before ≡ under self.old key) }
        ensures stored { OnOk result (under self.new
            ≡ put (under self.old) key (after effect (under self.old key))) }
    {
        match self {
            Shard::Keyless => Err(AllocError),
            Shard::Set(set) => {
                if !is_of_set(effect) {
                    return Err(AllocError);
                }
                let before = set.apply(key, effect, reducers)?;
                Ok(before)
            }
            Shard::Map(map) => {
                if !is_of_map(effect) {
                    return Err(AllocError);
                }
                let before = map.apply(key, effect, reducers)?;
                Ok(before)
            }
        }
    }

    /// The keys of a set, each with 0, or of a map with their words, by rising key.
    #[tactic(auto, using(crate::proofs::Listed::are_listed))]
    fn sorted(&self, alloc: Global) -> Result<Pairs, AllocError>
        ensures { IfOk result (λ pairs. Lists pairs (under self.now)) }
    {
        match self {
            Shard::Keyless => Ok(Pairs::new(alloc)),
            Shard::Set(set) => set.sorted(alloc),
            Shard::Map(map) => map.sorted(alloc),
        }
    }
}

/// Stores what an effect of calls makes of what stands under a key of the object of that number, and answers what stood
/// there before. It is an error where there is no such object with keys, or where the effect is none of calls on it.
#[tactic(auto, using(crate::proofs::Shards::at_shards))]
pub fn apply_at(
    shards: &mut [Shard],
    object: usize,
    key: u64,
    effect: Effect,
    reducers: &Reducers,
) -> Result<Option<u64>, AllocError>
    ensures before { IfOk result (λ before. before ≡ shards_of shards.old object key) }
    ensures stored { OnOk result (shards_of shards.new ≡ put (shards_of shards.old) object
        (put (shards_of shards.old object) key (after effect (shards_of shards.old object key)))) }
{
    if object >= shards.len() {
        return Err(AllocError);
    }
    shards[object].apply(key, effect, reducers)
}

/// What stands under the keys of the object of that number, by rising key; nothing where there is none.
#[tactic(auto, using(crate::proofs::Shards::at_shards))]
pub fn sorted_at(alloc: Global, shards: &[Shard], object: usize) -> Result<Pairs, AllocError>
    ensures { IfOk result (λ pairs. Lists pairs (shards_of shards.now object)) }
{
    if object >= shards.len() {
        return Ok(Pairs::new(alloc));
    }
    shards[object].sorted(alloc)
}

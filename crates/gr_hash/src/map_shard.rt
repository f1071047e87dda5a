//! The part of a map that one core keeps.
ghost use Rattle.std.specs.Prelude.{◌≡◌, IfOk, OnErr, OnOk, Some, None};
ghost use Rattle.std.specs.BTreeMap.{IsOrdered};
ghost use Rattle.std.specs.FinMap.{entries};
ghost use Rattle.std.specs.Ordering.{nat_cmp};
ghost use Rattle.gr_view.specs.Places.{put};
ghost use Rattle.gr_lang.specs.Effects.{after};
ghost use Rattle.gr_hash.specs.Shards.{nothing_held, under_of};

use gr_lang::{Effect, Pairs};
use gr_reduce::Reducers;
use std::alloc::{AllocError, Global};
use std::collections::BTreeMap;
use std::marker::Model;

/// The part of a map that one core keeps: words under keys.
#[derive(Drop)]
pub struct MapShard {
    tree: BTreeMap<u64, u64>,
}

impl Model for MapShard {
    ghost use Rattle.std.specs.Prelude.{ℕ};
    ghost use Rattle.std.specs.FinMap as fin;
    ghost use Rattle.std.specs.Ordering.{nat_cmp};
    ghost use Rattle.std.specs.Coded.{coded_ℕ};

    ghost Value = { fin.FinMap nat_cmp ℕ };

    ghost coded = { fin.code coded_ℕ coded_ℕ };

    ghost view = { λ shard. fin.from_entries shard.tree.entries };
}

/// The entries of a tree by rising key.
fn pairs_in(alloc: Global, tree: &BTreeMap<u64, u64>) -> Result<Pairs, AllocError>
    ensures listed { IfOk result (λ pairs. pairs ≡ tree.now.entries) }
    ensures ordered { IsOrdered nat_cmp tree.now }
{
    let mut pairs = Vec::with_capacity(alloc, tree.len())?;
    for (key, word) in tree {
        pairs.push((*key, *word))?;
    }
    Ok(Pairs::from_vec(pairs))
}

impl MapShard {
    /// Nothing under any key. It takes no memory.
    pub fn new(alloc: Global) -> MapShard
        ensures { under_of result ≡ nothing_held }
    {
        MapShard {
            tree: BTreeMap::new(alloc),
        }
    }

    /// The word under a key, if there is one. It takes no memory.
    pub fn get(&self, key: u64) -> Option<u64>
        ensures { result ≡ under_of self.now key }
    {
        self.tree.get(&key).copied()
    }

    /// All pairs of a key and its word, by rising key.
    pub fn sorted(&self, alloc: Global) -> Result<Pairs, AllocError>
        ensures { IfOk result (λ pairs. pairs ≡ entries self.now) }
    {
        let pairs = pairs_in(alloc, &self.tree)?;
        Ok(pairs)
    }

    fn insert(&mut self, key: u64, word: u64) -> Result<(), AllocError>
        ensures ok { OnOk result (under_of self.new ≡ put (under_of self.old) key (Some word)) }
        ensures err { OnErr result (self.new ≡ self.old) }
    {
        self.tree.insert(key, word)?;
        Ok(())
    }

    fn remove(&mut self, key: u64)
        ensures { under_of self.new ≡ put (under_of self.old) key None }
    {
        self.tree.remove(&key);
    }

    /// Stores a word or nothing under a key.
    fn store(&mut self, key: u64, now: Option<u64>) -> Result<(), AllocError>
        ensures ok { OnOk result (under_of self.new ≡ put (under_of self.old) key now) }
        ensures err { OnErr result (self.new ≡ self.old) }
    {
        match now {
            Some(word) => self.insert(key, word)?,
            None => self.remove(key),
        }
        Ok(())
    }

    /// Stores what an effect makes of what stands under a key, and answers what stood there before. Unchanged
    /// where there is no memory.
    #[tactic(auto, using(crate::proofs::Held::keeps))]
    pub fn apply(
        &mut self,
        key: u64,
        effect: Effect,
        reducers: &Reducers,
    ) -> Result<Option<u64>, AllocError>
        ensures before { IfOk result (λ before. before ≡ under_of self.old key) }
        ensures stored { OnOk result (under_of self.new
            ≡ put (under_of self.old) key (after effect (under_of self.old key))) }
        ensures err { OnErr result (self.new ≡ self.old) }
    {
        let before = self.get(key);
        if let Effect::Keep = effect {
            return Ok(before);
        }
        let now = reducers.after(effect, before);
        self.store(key, now)?;
        Ok(before)
    }
}

//! The part of a set that one core keeps.
ghost use Rattle.std.specs.Prelude.{◌≡◌, IfOk, OnErr, OnOk, Some, None};
ghost use Rattle.std.specs.BTreeSet.{IsOrdered};
ghost use Rattle.std.specs.FinMap.{entries};
ghost use Rattle.std.specs.Ordering.{nat_cmp};
ghost use Rattle.gr_view.specs.Places.{put};
ghost use Rattle.gr_lang.specs.Effects.{after};
ghost use Rattle.gr_hash.specs.Shards.{IsOfSet, nothing_held, under_of, with_zeros, zero_if};

use gr_lang::{Effect, Pairs};
use gr_reduce::Reducers;
use std::alloc::{AllocError, Global};
use std::collections::BTreeSet;
use std::marker::Model;

/// The part of a set that one core keeps: keys, under each of which stands 0.
#[derive(Drop)]
pub struct SetShard {
    tree: BTreeSet<u64>,
}

impl Model for SetShard {
    ghost use Rattle.std.specs.Prelude.{ℕ};
    ghost use Rattle.std.specs.FinMap as fin;
    ghost use Rattle.std.specs.Ordering.{nat_cmp};
    ghost use Rattle.std.specs.Coded.{coded_ℕ};
    ghost use Rattle.gr_hash.specs.Shards.{with_zeros};

    ghost Value = { fin.FinMap nat_cmp ℕ };

    ghost coded = { fin.code coded_ℕ coded_ℕ };

    ghost view = { λ shard. fin.from_entries (with_zeros shard.tree.keys) };
}

/// The keys of a tree by rising key, each with 0.
fn pairs_in(alloc: Global, tree: &BTreeSet<u64>) -> Result<Pairs, AllocError>
    ensures listed { IfOk result (λ pairs. pairs ≡ with_zeros tree.now.keys) }
    ensures ordered { IsOrdered nat_cmp tree.now }
{
    let mut pairs = Vec::with_capacity(alloc, tree.len())?;
    for key in tree {
        pairs.push((*key, 0))?;
    }
    Ok(Pairs::from_vec(pairs))
}

/// What stands under a key that is there, or isn't.
fn zero_if(is_there: bool) -> Option<u64>
    ensures { result ≡ zero_if is_there }
{
    if is_there { Some(0) } else { None }
}

impl SetShard {
    /// Nothing under any key. It takes no memory.
    pub fn new(alloc: Global) -> SetShard
        ensures { under_of result ≡ nothing_held }
    {
        SetShard {
            tree: BTreeSet::new(alloc),
        }
    }

    /// 0 where the key is there. It takes no memory.
    pub fn get(&self, key: u64) -> Option<u64>
        ensures { result ≡ under_of self.now key }
    {
        zero_if(self.tree.contains(&key))
    }

    /// All keys, each with 0, by rising key.
    pub fn sorted(&self, alloc: Global) -> Result<Pairs, AllocError>
        ensures { IfOk result (λ pairs. pairs ≡ entries self.now) }
    {
        let pairs = pairs_in(alloc, &self.tree)?;
        Ok(pairs)
    }

    fn insert(&mut self, key: u64) -> Result<(), AllocError>
        ensures ok { OnOk result (under_of self.new ≡ put (under_of self.old) key (Some 0)) }
        ensures err { OnErr result (self.new ≡ self.old) }
    {
        self.tree.insert(key)?;
        Ok(())
    }

    fn remove(&mut self, key: u64)
        ensures { under_of self.new ≡ put (under_of self.old) key None }
    {
        self.tree.remove(&key);
    }

    /// Stores what an effect of calls on a set makes of what stands under a key, and answers what stood there
    /// before. Unchanged where there is no memory. No such effect calls a reducer.
    #[tactic(auto, using(crate::proofs::Held::keeps))]
    pub fn apply(
        &mut self,
        key: u64,
        effect: Effect,
        reducers: &Reducers,
    ) -> Result<Option<u64>, AllocError>
        requires { IsOfSet effect }
        ensures before { IfOk result (λ before. before ≡ under_of self.old key) }
        ensures stored { OnOk result (under_of self.new
            ≡ put (under_of self.old) key (after effect (under_of self.old key))) }
        ensures err { OnErr result (self.new ≡ self.old) }
    {
        let _ = reducers;
        let before = self.get(key);
        match effect {
            Effect::Absent => self.remove(key),
            Effect::Present { .. } => self.insert(key)?,
            Effect::Keep | Effect::Fold { .. } => (),
        }
        Ok(before)
    }
}

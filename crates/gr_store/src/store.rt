//! What lies at one core.
ghost use Rattle.std.specs.Prelude.{◌≡◌, ◌<◌, true, IfOk, OnOk, Some, is_some, length};
ghost use Rattle.std.specs.FinMap as map;
ghost use Rattle.gr_lang.specs.Objects.{start_in};
ghost use Rattle.gr_lang.specs.Openings.{opening};
ghost use Rattle.gr_machine.specs.Machines.{machine_of};
ghost use Rattle.gr_machine.specs.Openings.{opening_words};
ghost use Rattle.gr_machine.specs.declared.setup.Setup.{Setup};
ghost use Rattle.gr_store.specs.Stores.{Deals, Lists, with_block, with_effect, with_word, without_block};
ghost use Rattle.gr_store.specs.StoreView.{blocks_in, store_in};

use crate::opening::{opening_blocks, opening_segment, opening_shards};
use crate::shard::{Shard, apply_at, sorted_at};
use gr_addr::{Layout, Segment, WordOp};
use gr_alloc::Blocks;
use gr_code::Code;
use gr_lang::{Effect, Pairs};
use gr_reduce::Reducers;
use std::alloc::{AllocError, Global};
use std::marker::Model;

/// The words whose home is one core, what stands under the keys of each set and map whose home it is, and at core 0
/// the live blocks of the heap.
#[derive(Drop)]
pub struct Store {
    segment: Segment,
    shards: Vec<Shard>,
    blocks: Option<Blocks>,
}

impl Model for Store {
    ghost use Rattle.std.specs.Coded.{codes, coded_ℕ};
    ghost use Rattle.std.specs.FinMap as fin;
    ghost use Rattle.std.specs.Ordering.{nat_cmp};
    ghost use Rattle.gr_store.specs.contracts.shard.Shard as shard;
    ghost use Rattle.gr_store.specs.StoreView.{StoreData};

    ghost Value = { StoreData };

    ghost coded = { Prim.hlevel (codes, shard.the_row.coded, fin.code {R = nat_cmp} coded_ℕ coded_ℕ) };

    ghost view = { λ store. record {
      segment = store.segment;
      shards = store.shards.items;
      blocks = store.blocks;
    } };
}

impl Store {
    /// What lies at a core as a run opens: the opening words of the addresses that are dealt to it. Core 0 keeps the
    /// heap's blocks.
    pub fn open(alloc: Global, code: &Code, layout: &Layout, me: u64) -> Result<Store, AllocError>
        requires core { me < layout.now.cores }
        requires words { layout.now.words ≡ length (opening code.now.program).words }
        ensures words { (setup : Setup) → Deals layout.now setup → IfOk result (λ store.
            (store_in store).words ≡ opening_words (machine_of setup code.now.program) me) }
        ensures heap { IfOk result (λ store. me ≡ 0
            → (store_in store).heap ≡ (opening code.now.program).heap) }
    {
        let segment = opening_segment(alloc, code, layout, me)?;
        let shards = opening_shards(alloc, code.objects().as_slice())?;
        let blocks = opening_blocks(alloc, code.heap(), me)?;
        Ok(Store {
            segment,
            shards,
            blocks,
        })
    }

    /// The word at a place; none where there is no such place.
    pub fn word(&self, place: u64) -> Option<u64>
        ensures { result ≡ (store_in self.now).words.segment place }
    {
        if self.segment.holds(place) {
            Some(self.segment.get(place))
        } else {
            None
        }
    }

    /// Stores a word at a place that there is. It takes no memory.
    pub fn set_word(&mut self, place: u64, word: u64)
        requires { is_some ((store_in self.old).words.segment place) ≡ true }
        ensures { store_in self.new ≡ with_word (store_in self.old) place (Some word) }
    {
        self.segment.apply(WordOp::Write { word }, place);
    }

    /// Stores what an effect of calls makes of what stands under a key of an object, and answers what stood there
    /// before. It is an error where the object has no keys, or where the effect is none of calls on it.
    pub fn apply(
        &mut self,
        object: u64,
        key: u64,
        effect: Effect,
        reducers: &Reducers,
    ) -> Result<Option<u64>, AllocError>
        ensures before { IfOk result (λ before. before
            ≡ (store_in self.old).words.shards object key) }
        ensures stored { OnOk result (store_in self.new
            ≡ with_effect (store_in self.old) object key effect) }
    {
        apply_at(&mut self.shards, object as usize, key, effect, reducers)
    }

    /// Makes the first block of so many free words of the heap live, and answers its start; none where there is none.
    /// It is an error at a core that doesn't keep the blocks.
    pub fn alloc(&mut self, count: u64) -> Result<Option<u64>, AllocError>
        ensures start { IfOk result (λ start. start
            ≡ start_in (store_in self.old).heap (store_in self.old).words.blocks count) }
        ensures block { IfOk result (λ start. store_in self.new
            ≡ with_block (store_in self.old) start count) }
    {
        match &mut self.blocks {
            None => Err(AllocError),
            Some(blocks) => Ok(blocks.alloc(count)),
        }
    }

    /// Frees the block that starts at an address, and answers whether there was one. It is an error at a core that
    /// doesn't keep the blocks.
    pub fn free(&mut self, at: u64) -> Result<bool, AllocError>
        ensures was { IfOk result (λ was. was
            ≡ is_some (map.get (store_in self.old).words.blocks at)) }
        ensures gone { OnOk result (store_in self.new ≡ without_block (store_in self.old) at) }
    {
        match &mut self.blocks {
            None => Err(AllocError),
            Some(blocks) => Ok(blocks.free(at)),
        }
    }

    /// The keys of a set, each with 0, or of a map with their words, by rising key; nothing for another object.
    pub fn sorted(&self, alloc: Global, object: u64) -> Result<Pairs, AllocError>
        ensures { IfOk result (λ pairs. Lists pairs ((store_in self.now).words.shards object)) }
    {
        sorted_at(alloc, &self.shards, object as usize)
    }
}

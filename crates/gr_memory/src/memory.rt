//! The plain memory: words in arrays and the heap, sets, maps, vectors and the live blocks.
ghost use Rattle.std.specs.Prelude.{◌≡◌, ◌+◌, ◌≤◌, ◌<◌, ◌^◌, All, IfOk, IfSome, OnErr, OnOk, length, slice_index, slice_set};
ghost use Rattle.gr_syntax.specs.declared.limits.TheConstants.{MAX_WORDS};
ghost use Rattle.std.specs.FinMap as fin;
ghost use Rattle.gr_lang.specs.Objects as spec;
ghost use Rattle.gr_memory.specs.Contents.{contents_of};
ghost use Rattle.gr_memory.specs.Ranges.{LiesIn};

use crate::contents::Contents;
use crate::things::{Thing, affect_at, change_line_at, contents_in};
use gr_alloc::Blocks;
use gr_lang::{Op, Reply};
use gr_syntax::HEAP;
use std::alloc::{AllocError, Global};
use std::marker::Model;

/// The objects of a program and all that they hold.
#[derive(Drop)]
pub struct Memory {
    words: Vec<u64>,
    things: Vec<Thing>,
    blocks: Blocks,
}

impl Model for Memory {
    ghost use Rattle.gr_lang.specs.Objects.{Objects};
    ghost use Rattle.std.specs.Coded.{codes, coded_ℕ};
    ghost use Rattle.std.specs.FinMap as fin;
    ghost use Rattle.std.specs.FinSet as set;
    ghost use Rattle.std.specs.Ordering.{nat_cmp};

    ghost Value = { Objects };

    ghost coded = { Prim.hlevel (codes, set.code {R = nat_cmp} coded_ℕ, fin.code {R = nat_cmp} coded_ℕ coded_ℕ) };

    ghost use Rattle.gr_memory.specs.MemoryView.{objects_of, IsMemory};

    ghost view = { objects_of };

    ghost invariant = { IsMemory };
}

impl Memory {
    /// The memory at the start of a run. Its arrays and its heap, of `heap_count` words from the address
    /// `heap_from` on, at most 2^24, lie in the words, and no block is live. `Err` when memory runs out.
    pub fn new(
        alloc: Global,
        words: Vec<u64>,
        things: Vec<Thing>,
        heap_from: u64,
        heap_count: u64,
    ) -> Result<Memory, AllocError>
        requires arrays { All (LiesIn (length words.items)) things.items }
        requires heap { heap_from + heap_count ≤ length words.items }
        requires small { heap_count ≤ MAX_WORDS }
        ensures { IfOk result (λ memory. memory ≡ record {
          words = words.items;
          things = things.items;
          heap = record { from = heap_from; count = heap_count };
          live = fin.empty;
        }) }
    {
        let blocks = Blocks::new(alloc, heap_from, heap_count)?;
        Ok(Memory {
            words,
            things,
            blocks,
        })
    }

    /// The address of a place of an object, where the object has that place. The heap's places are
    /// addresses.
    pub fn address(&self, object: u64, place: u64) -> Option<usize>
        ensures value { result ≡ spec.address self.now object place }
        ensures within { IfSome result (λ at. at < length self.now.words) }
    {
        if object == HEAP {
            return if self.blocks.contains(place) {
                Some(place as usize)
            } else {
                None
            };
        }
        match self.things.get(object as usize) {
            Some(thing) => thing.address(place).map(|at| at as usize),
            None => None,
        }
    }

    /// The word at an address.
    pub fn word(&self, at: usize) -> u64
        requires { at < length self.now.words }
        ensures { result ≡ slice_index self.now.words at }
    {
        self.words[at]
    }

    fn set_word(&mut self, at: usize, word: u64)
        requires { at < length self.old.words }
        ensures { self.new ≡ record self.old { words = slice_set self.old.words at word } }
    {
        self.words[at] = word;
    }

    /// What each object holds but the heap, by the objects' numbers. An error is want of memory.
    pub fn contents(&self, alloc: Global) -> Result<Contents, AllocError>
        ensures { IfOk result (λ contents. contents ≡ contents_of self.now) }
    {
        contents_in(alloc, &self.things, &self.words)
    }

    /// What a call would reply now.
    pub fn reply(&self, op: Op) -> Reply
        ensures { result ≡ (spec.call op self.now).1 }
    {
        match op {
            Op::Read { object, place }
            | Op::Write { object, place, .. }
            | Op::Add { object, place, .. }
            | Op::Cas { object, place, .. }
            | Op::Reduce { object, place, .. } => self.word_reply(object, place, op),
            Op::Insert { object, key }
            | Op::Remove { object, key }
            | Op::Has { object, key }
            | Op::Put { object, key, .. }
            | Op::Get { object, key }
            | Op::Erase { object, key }
            | Op::Merge { object, key, .. } => self.key_reply(object, key, op),
            Op::Push { object, .. } | Op::Pop { object } | Op::Dequeue { object } => {
                self.line_reply(object, op)
            }
            Op::Alloc { count } => self.alloc_reply(count),
            Op::Free { place } => self.free_reply(place),
            Op::Print { .. } => Reply::nothing(),
        }
    }

    fn word_reply(&self, object: u64, place: u64, op: Op) -> Reply
        ensures { result ≡ (spec.on_word object place op self.now).1 }
    {
        match self.address(object, place) {
            Some(at) => op.word_reply(self.word(at)),
            None => Reply::nothing(),
        }
    }

    fn key_reply(&self, object: u64, key: u64, op: Op) -> Reply
        ensures { result ≡ (spec.on_object object (spec.on_key key op) self.now).1 }
    {
        match self.things.get(object as usize) {
            Some(thing) => op.key_reply(thing.under(key)),
            None => Reply::nothing(),
        }
    }

    fn line_reply(&self, object: u64, op: Op) -> Reply
        ensures { result ≡ (spec.on_object object (spec.on_line op) self.now).1 }
    {
        match self.things.get(object as usize) {
            Some(thing) => thing.line_reply(op),
            None => Reply::nothing(),
        }
    }

    /// The least start of a free block of `count` words in the heap.
    fn start_for(&self, count: u64) -> Option<u64>
        ensures { result ≡ spec.start_for self.now count }
    {
        self.blocks.start_for(count)
    }

    fn alloc_reply(&self, count: u64) -> Reply
        ensures { result ≡ (spec.alloc_at (spec.start_for self.now count) count self.now).1 }
    {
        match self.start_for(count) {
            Some(start) => Reply::one(start),
            None => Reply::one(u64::MAX),
        }
    }

    fn free_reply(&self, place: u64) -> Reply
        ensures { result ≡ (spec.free_at place self.now).1 }
    {
        Reply::whether(self.blocks.is_live(place))
    }

    /// Makes a call. Unchanged where there is no memory.
    pub fn apply(&mut self, op: Op) -> Result<(), AllocError>
        ensures ok { OnOk result (self.new ≡ (spec.call op self.old).0) }
        ensures err { OnErr result (self.new ≡ self.old) }
    {
        match op {
            Op::Read { object, place }
            | Op::Write { object, place, .. }
            | Op::Add { object, place, .. }
            | Op::Cas { object, place, .. }
            | Op::Reduce { object, place, .. } => {
                self.change_word(object, place, op);
                Ok(())
            }
            Op::Insert { object, key }
            | Op::Remove { object, key }
            | Op::Has { object, key }
            | Op::Put { object, key, .. }
            | Op::Get { object, key }
            | Op::Erase { object, key }
            | Op::Merge { object, key, .. } => self.change_key(object, key, op),
            Op::Push { object, .. } | Op::Pop { object } | Op::Dequeue { object } => {
                self.change_line(object, op)
            }
            Op::Alloc { count } => {
                self.alloc(count);
                Ok(())
            }
            Op::Free { place } => {
                self.free(place);
                Ok(())
            }
            Op::Print { .. } => Ok(()),
        }
    }

    fn change_word(&mut self, object: u64, place: u64, op: Op)
        ensures { self.new ≡ (spec.on_word object place op self.old).0 }
    {
        if let Some(at) = self.address(object, place) {
            let before = self.word(at);
            self.set_word(at, op.word_after(before));
        }
    }

    fn change_key(&mut self, object: u64, key: u64, op: Op) -> Result<(), AllocError>
        ensures ok { OnOk result
            (self.new ≡ (spec.on_object object (spec.on_key key op) self.old).0) }
        ensures err { OnErr result (self.new ≡ self.old) }
    {
        affect_at(&mut self.things, object, key, op.effect())
    }

    fn change_line(&mut self, object: u64, op: Op) -> Result<(), AllocError>
        ensures ok { OnOk result
            (self.new ≡ (spec.on_object object (spec.on_line op) self.old).0) }
        ensures err { OnErr result (self.new ≡ self.old) }
    {
        change_line_at(&mut self.things, object, op)
    }

    fn alloc(&mut self, count: u64)
        ensures { self.new ≡ (spec.alloc_at (spec.start_for self.old count) count self.old).0 }
    {
        self.blocks.alloc(count);
    }

    fn free(&mut self, place: u64)
        ensures { self.new ≡ (spec.free_at place self.old).0 }
    {
        self.blocks.free(place);
    }
}

//! The heap with its live blocks.
ghost use Rattle.std.specs.Prelude.{◌≡◌, ◌+◌, ◌<◌, ◌≤◌, ◌^◌, ◌&&◌, ℕ, IfOk, IfSome, None, is_some, length, nat_le, nat_lt, slice_index};
ghost use Rattle.gr_syntax.specs.declared.limits.TheConstants.{MAX_WORDS};
ghost use Rattle.std.specs.FinMap as fin;
ghost use Rattle.gr_lang.specs.Objects.{start_in};
ghost use Rattle.gr_alloc.specs.HeapBlocks.{LieApart, LieInside, with_block};
ghost use Rattle.gr_alloc.specs.HoleView.{AreHoles, first_hole, live_at, place_in};

use crate::cuts::Cuts;
use crate::holes::{clear, fill};
use crate::peaks::Peaks;
use std::alloc::{AllocError, Global};
use std::marker::Model;

/// The words of the heap, by their addresses, and which blocks of them are live.
///
/// To make a block live, to free one and to look for a place take steps in the logarithm of the heap's
/// words, and no memory: what they need is there from the start.
#[derive(Drop)]
pub struct Blocks {
    start: u64,
    cuts: Cuts,
    holes: Peaks,
}

impl Model for Blocks {
    ghost use Rattle.gr_alloc.specs.HeapBlocks.{HeapBlocks};
    ghost use Rattle.std.specs.Coded.{codes, coded_ℕ};
    ghost use Rattle.std.specs.FinMap as fin;
    ghost use Rattle.std.specs.Ordering.{nat_cmp};

    ghost Value = { HeapBlocks };

    ghost coded = { Prim.hlevel (codes, fin.code {R = nat_cmp} coded_ℕ coded_ℕ) };

    ghost use Rattle.gr_alloc.specs.BlockView.{blocks_of, IsBlocks};

    ghost view = { blocks_of };

    ghost invariant = { IsBlocks };
}

/// The place of the first hole of at least `count` words; none for 0 words.
fn first_place(cuts: &Cuts, holes: &Peaks, count: u64) -> Option<usize>
    requires { AreHoles cuts.now holes.now }
    ensures value { result ≡ first_hole holes.now count }
    ensures some { IfSome result (λ _. 0 < count) }
    ensures fits { IfSome result (λ place. count ≤ slice_index holes.now place) }
    ensures inside { IfSome result (λ place. place + count ≤ length cuts.now) }
{
    if count == 0 {
        return None;
    }
    if count > cuts.len() as u64 {
        return None;
    }
    holes.first_at_least(count as u32)
}

/// How far an address lies behind the heap's first one, where it is one of the heap's.
fn place_of(cuts: &Cuts, start: u64, at: u64) -> Option<usize>
    requires { start + length cuts.now < 2 ^ 64 }
    ensures value { result ≡ place_in record { from = start; count = length cuts.now } at }
    ensures inside { IfSome result (λ place. place < length cuts.now) }
{
    if start <= at && at < start + cuts.len() as u64 {
        Some((at - start) as usize)
    } else {
        None
    }
}

/// Whether a live block starts at a place.
fn is_block(cuts: &Cuts, holes: &Peaks, at: usize) -> bool
    requires holes { AreHoles cuts.now holes.now }
    requires inside { at < length cuts.now }
    ensures { result ≡ is_some (live_at cuts.now holes.now at) }
{
    holes.get(at) == 0 && cuts.size(at) > 0
}

/// One hole of so many words. `Err` when memory runs out.
fn one_hole(alloc: Global, words: usize) -> Result<(Cuts, Peaks), AllocError>
    requires { words ≤ MAX_WORDS }
    ensures holes { IfOk result (λ pieces. AreHoles pieces.0 pieces.1) }
    ensures len { IfOk result (λ pieces. length pieces.0 ≡ words) }
    ensures free { IfOk result (λ pieces. (k : ℕ) → live_at pieces.0 pieces.1 k ≡ None) }
{
    let cuts = Cuts::new(alloc, words)?;
    let mut holes = Peaks::new(alloc, words)?;
    holes.set(0, words as u32);
    Ok((cuts, holes))
}

impl Blocks {
    /// A heap of so many words, at most 2^24, from the address `start` on. No block is live. `Err` when
    /// memory runs out.
    pub fn new(alloc: Global, start: u64, words: u64) -> Result<Blocks, AllocError>
        requires small { words ≤ MAX_WORDS }
        requires fits { start + words < 2 ^ 64 }
        ensures { IfOk result (λ blocks. blocks ≡ record {
          heap = record { from = start; count = words };
          live = fin.empty;
        }) }
    {
        let (cuts, holes) = one_hole(alloc, words as usize)?;
        Ok(Blocks { start, cuts, holes })
    }

    /// Whether the address is one of the heap's.
    pub fn contains(&self, at: u64) -> bool
        ensures { result ≡ (nat_le self.now.heap.from at
            && nat_lt at (self.now.heap.from + self.now.heap.count)) }
    {
        self.start <= at && at < self.start + self.cuts.len() as u64
    }

    /// The least address from which `count` words lie in the heap and in no live block; none for 0 words.
    pub fn start_for(&self, count: u64) -> Option<u64>
        ensures { result ≡ start_in self.now.heap self.now.live count }
    {
        match first_place(&self.cuts, &self.holes, count) {
            Some(place) => Some(self.start + place as u64),
            None => None,
        }
    }

    /// Makes the first block of `count` free words live, and gives its start; nothing changes where there
    /// is none.
    pub fn alloc(&mut self, count: u64) -> Option<u64>
        ensures place { result ≡ start_in self.old.heap self.old.live count }
        ensures value { self.new ≡ with_block self.old result count }
        ensures heap { self.new.heap ≡ self.old.heap }
    {
        match first_place(&self.cuts, &self.holes, count) {
            Some(place) => {
                fill(&mut self.cuts, &mut self.holes, place, count as u32);
                Some(self.start + place as u64)
            }
            None => None,
        }
    }

    /// Whether a live block starts at the address. The live blocks lie in the heap, and no two have a word
    /// in common.
    pub fn is_live(&self, at: u64) -> bool
        ensures value { result ≡ is_some (fin.get self.now.live at) }
        ensures inside { LieInside self.now }
        ensures apart { LieApart self.now }
    {
        match place_of(&self.cuts, self.start, at) {
            Some(place) => is_block(&self.cuts, &self.holes, place),
            None => false,
        }
    }

    /// Ends the life of the block that starts at the address, and says whether there was one.
    pub fn free(&mut self, at: u64) -> bool
        ensures answer { result ≡ is_some (fin.get self.old.live at) }
        ensures value { self.new ≡ record self.old { live = fin.remove self.old.live at } }
    {
        match place_of(&self.cuts, self.start, at) {
            Some(place) => {
                if !is_block(&self.cuts, &self.holes, place) {
                    return false;
                }
                clear(&mut self.cuts, &mut self.holes, place);
                true
            }
            None => false,
        }
    }
}

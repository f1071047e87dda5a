//! The heap cut into pieces, with the piece that starts and the one that ends at each place.
ghost use Rattle.std.specs.Prelude.{◌≡◌, ◌+◌, ◌-◌, ◌<◌, ◌≤◌, ◌^◌, ℕ, IfOk, length, replicate, slice_index, slice_set};
ghost use Rattle.gr_syntax.specs.declared.limits.TheConstants.{MAX_WORDS};

use std::alloc::{AllocError, Global};
use std::marker::Model;

/// Words in pieces, one behind the other, by the places where they start.
#[derive(Drop)]
pub struct Cuts {
    sizes: Vec<u32>,
    ends: Vec<u32>,
}

impl Model for Cuts {
    ghost use Rattle.std.specs.Prelude.{List, ℕ};

    ghost Value = { List ℕ };

    ghost use Rattle.gr_alloc.specs.CutView.{IsCuts};

    ghost view = { λ c. c.sizes.items };

    ghost invariant = { IsCuts };
}

/// Zeros, but for a number at one place, where there is that place. `Err` when memory runs out.
fn zeros_but(alloc: Global, count: usize, at: usize, number: u32) -> Result<Vec<u32>, AllocError>
    ensures { IfOk result (λ numbers. numbers.items ≡ slice_set (replicate count 0) at number) }
{
    let mut numbers = vec![in alloc; 0; count]?;
    if at < count {
        numbers[at] = number;
    }
    Ok(numbers)
}

impl Cuts {
    ghost use Rattle.gr_alloc.specs.CutView.{IsCut, joined_at, split_at};

    /// One piece of so many words. `Err` when memory runs out.
    pub fn new(alloc: Global, words: usize) -> Result<Cuts, AllocError>
        requires { words ≤ MAX_WORDS }
        ensures value { IfOk result (λ cuts. cuts ≡ slice_set (replicate words 0) 0 words) }
        ensures cut { IfOk result (λ cuts. IsCut cuts) }
    {
        let sizes = zeros_but(alloc, words, 0, words as u32)?;
        let ends = zeros_but(alloc, words + 1, words, words as u32)?;
        Ok(Cuts { sizes, ends })
    }

    /// How many words there are.
    pub fn len(&self) -> usize
        ensures len { result ≡ length self.now }
        ensures cut { IsCut self.now }
    {
        self.sizes.len()
    }

    /// The words of the piece that starts at the place; 0 where none does.
    pub fn size(&self, at: usize) -> u32
        requires { at < length self.now }
        ensures { result ≡ slice_index self.now at }
    {
        self.sizes[at]
    }

    /// The words of the piece that ends at the place; 0 where none does.
    pub fn size_before(&self, end: usize) -> u32
        requires { end ≤ length self.now }
        ensures inside { result ≤ end }
        ensures starts { 0 < result → slice_index self.now (end - result) ≡ result }
        ensures found { (at : ℕ) → 0 < slice_index self.now at
            → at + slice_index self.now at ≡ end → result ≡ slice_index self.now at }
    {
        self.ends[end]
    }

    /// Cuts the piece at a place in two, the first of so many words.
    pub fn split(&mut self, at: usize, first: u32)
        requires some { 0 < first }
        requires fewer { first < slice_index self.old at }
        ensures value { self.new ≡ split_at self.old at first }
        ensures cut { IsCut self.new }
    {
        let words = self.sizes[at];
        let middle = at + first as usize;
        let end = at + words as usize;
        self.sizes[at] = first;
        self.sizes[middle] = words - first;
        self.ends[middle] = first;
        self.ends[end] = words - first;
    }

    /// Makes one piece of the piece at a place and the one behind it.
    pub fn join(&mut self, at: usize)
        requires there { 0 < slice_index self.old at }
        requires behind { at + slice_index self.old at < length self.old }
        ensures value { self.new ≡ joined_at self.old at }
        ensures cut { IsCut self.new }
    {
        let first = self.sizes[at];
        let middle = at + first as usize;
        let words = first + self.sizes[middle];
        self.sizes[at] = words;
        self.sizes[middle] = 0;
        self.ends[middle] = 0;
        self.ends[at + words as usize] = words;
    }
}

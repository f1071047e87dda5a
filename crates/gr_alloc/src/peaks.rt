//! Numbers by their places, with the first that is at least so great found in few steps.
ghost use Rattle.std.specs.Prelude.{◌≡◌, ◌+◌, ◌*◌, ◌<◌, ◌≤◌, ◌^◌, IfOk, length, nat_le, position, replicate, slice_index, slice_set};
ghost use Rattle.gr_syntax.specs.declared.limits.TheConstants.{MAX_WORDS};

use crate::nodes::{first_leaf, set_leaf};
use std::alloc::{AllocError, Global};
use std::marker::Model;

/// A list of numbers of a fixed length. A change and a search take steps in the number of levels of a
/// binary tree over it.
#[derive(Drop)]
pub struct Peaks {
    tree: Vec<u32>,
    levels: u32,
}

impl Model for Peaks {
    ghost use Rattle.std.specs.Prelude.{List, ℕ};

    ghost Value = { List ℕ };

    ghost use Rattle.gr_alloc.specs.PeakView.{list_of, IsPeaks};

    ghost view = { list_of };

    ghost invariant = { IsPeaks };
}

impl Peaks {
    /// Zeros, at least so many, and at least one. `Err` when memory runs out.
    pub fn new(alloc: Global, count: usize) -> Result<Peaks, AllocError>
        requires { count ≤ MAX_WORDS }
        ensures enough { IfOk result (λ peaks. count ≤ length peaks) }
        ensures some { IfOk result (λ peaks. 0 < length peaks) }
        ensures zeros { IfOk result (λ peaks. peaks ≡ replicate (length peaks) 0) }
    {
        let mut levels = 0;
        let mut leaves = 1;
        'doubling: while leaves < count {
            levels += 1;
            leaves *= 2;
        }
        let tree = vec![in alloc; 0; 2 * leaves]?;
        Ok(Peaks { tree, levels })
    }

    /// The number at a place.
    pub fn get(&self, at: usize) -> u32
        requires { at < length self.now }
        ensures { result ≡ slice_index self.now at }
    {
        self.tree[self.tree.len() / 2 + at]
    }

    /// Puts a number at a place.
    pub fn set(&mut self, at: usize, number: u32)
        requires { at < length self.old }
        ensures { self.new ≡ slice_set self.old at number }
    {
        let leaf = self.tree.len() / 2 + at;
        set_leaf(&mut self.tree, self.levels, leaf, number);
    }

    /// The first place of a number of at least `need`, if there is one.
    pub fn first_at_least(&self, need: u32) -> Option<usize>
        ensures { result ≡ position (λ x. nat_le need x) self.now }
    {
        if self.tree[1] < need {
            return None;
        }
        Some(first_leaf(&self.tree, self.levels, need) - self.tree.len() / 2)
    }
}

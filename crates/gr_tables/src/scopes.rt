//! The scopes of a run: their owners and parents, and the ranges of loops.
ghost use Rattle.std.specs.Prelude.{◌≡◌, ◌++◌, IfOk, OnOk};
ghost use Rattle.gr_lang.specs.States.{range_left};
ghost use Rattle.gr_tables.specs.Scopes.{args_of, begin_scope, begins_in, begun_at};

use gr_lang::{TaskId, Words};
use gr_memory::Keys;
use std::alloc::{AllocError, Global};
use std::marker::Model;

/// A loop's range from `lo` to below `hi`, its task with the arguments behind the index, and the
/// indices that have begun.
#[derive(Drop)]
pub struct RangeRow {
    pub lo: u64,
    pub hi: u64,
    pub target: u64,
    pub args: Words,
    pub begun: Keys,
}

/// A scope: its owner and parent, and its range where it is a loop. The root has no owner.
#[derive(Drop)]
pub struct ScopeRow {
    pub owner: Option<TaskId>,
    pub parent: u64,
    pub range: Option<RangeRow>,
}

impl Model for ScopeRow {
    ghost use Rattle.gr_lang.specs.States.{Scope};
    ghost use Rattle.std.specs.Coded.{codes, coded_ℕ};
    ghost use Rattle.std.specs.FinSet as set;
    ghost use Rattle.std.specs.Ordering.{nat_cmp};

    ghost Value = { Scope };

    ghost coded = { Prim.hlevel (codes, set.code {R = nat_cmp} coded_ℕ) };

    ghost use Rattle.gr_tables.specs.ScopeView.{scope_of};

    ghost view = { scope_of };
}

impl ScopeRow {
    /// Whether an index of its range hasn't begun.
    pub fn is_range_left(&self) -> bool
        ensures { result ≡ range_left self.now.range }
    {
        match &self.range {
            None => false,
            Some(range) => (range.begun.len() as u64) < range.hi.saturating_sub(range.lo),
        }
    }

    /// The task of its range, where this index is in it and hasn't begun.
    pub fn begins(&self, index: u64) -> Option<u64>
        ensures { result ≡ begins_in self.now.range index }
    {
        match &self.range {
            None => None,
            Some(range) => {
                let has_begun = range.begun.has(index);
                if range.lo <= index && index < range.hi && !has_begun {
                    Some(range.target)
                } else {
                    None
                }
            }
        }
    }

    /// The arguments with which this index begins.
    pub fn args(&self, alloc: Global, index: u64) -> Result<Words, AllocError>
        ensures { IfOk result (λ words. words ≡ args_of self.now.range index) }
    {
        let mut words = Words::new(alloc);
        words.push(index)?;
        if let Some(range) = &self.range {
            push_all(&mut words, range.args.as_slice())?;
        }
        Ok(words)
    }

    /// The index has begun.
    pub fn begin(&mut self, index: u64) -> Result<(), AllocError>
        ensures { OnOk result (self.new ≡ begin_scope self.old index) }
    {
        match &mut self.range {
            None => Ok(()),
            Some(range) => range.begun.insert(index),
        }
    }
}

fn push_all(words: &mut Words, more: &[u64]) -> Result<(), AllocError>
    ensures { OnOk result (words.new ≡ words.old ++ more.now) }
{
    for word in more {
        words.push(*word)?;
    }
    Ok(())
}

/// The index of that scope's range has begun.
#[tactic(auto, using(crate::proofs::Begins::begins))]
pub fn begin_index(scopes: &mut [ScopeRow], scope: u64, index: u64) -> Result<(), AllocError>
    ensures { OnOk result (scopes.new ≡ begun_at scopes.old scope index) }
{
    let at = scope as usize;
    if at < scopes.len() {
        scopes[at].begin(index)
    } else {
        Ok(())
    }
}

//! The calls that wait to be combined.
ghost use Rattle.std.specs.Prelude.{◌≡◌, ◌++◌, ◌∷◌, [], IfOk, OnOk, OnErr, map, length};
ghost use Rattle.gr_batch.specs.Batches.{batch_of, batches_of, rest_of};

use crate::group::{Group, grouped};
use gr_lang::{Calls, Effect, Sequence, WaitingCall};
use gr_reduce::Reducers;
use indexmap::IndexMap;
use std::alloc::{AllocError, Global};
use std::marker::Model;

/// A call that waits to be combined, with its key. The key of a reduce is the address of its word.
#[derive(Clone, Copy)]
pub struct Held {
    pub key: u64,
    pub call: WaitingCall,
}

/// Calls on one key, in order, with the one effect that they have one after another.
#[derive(Drop)]
pub struct Batch {
    pub key: u64,
    pub effect: Effect,
    pub calls: Calls,
}

/// A list of batches.
pub type Batches = Sequence<Batch>;

/// The calls that wait to be combined, on one object, in the order in which they joined.
#[derive(Drop)]
pub struct Combiner {
    held: Vec<Held>,
}

impl Model for Combiner {
    ghost use Rattle.std.specs.Prelude.{List};
    ghost use Rattle.gr_batch.specs.declared.combiner.Held.{Held};

    ghost Value = { List Held };

    ghost view = { λ combiner. combiner.held.items };
}

fn batches_in(alloc: Global, groups: IndexMap<u64, Group>) -> Result<Batches, AllocError>
    ensures { IfOk result (λ batches. batches ≡ map batch_of groups.entries) }
{
    let mut batches = Batches::new(alloc);
    for (key, group) in groups {
        batches.push(group.into_batch(key))?;
    }
    Ok(batches)
}

impl Combiner {
    /// No calls. It takes no memory.
    pub fn new(alloc: Global) -> Combiner
        ensures { result ≡ [] }
    {
        Combiner {
            held: Vec::new(alloc),
        }
    }

    /// The number of calls that are held.
    pub fn len(&self) -> u64
        ensures { result ≡ length self.now }
    {
        self.held.len() as u64
    }

    /// Takes a call on a key in, as the last. Unchanged where there is no memory.
    pub fn join(&mut self, key: u64, call: WaitingCall) -> Result<(), AllocError>
        ensures ok { OnOk result (self.new ≡ self.old ++ (record { key = key; call = call }) ∷ []) }
        ensures err { OnErr result (self.new ≡ self.old) }
    {
        self.held.push(Held { key, call })?;
        Ok(())
    }

    /// One batch for each key, in the order of first appearance: the longest run of first calls on the key that
    /// folds. The other calls stay, in their order. Unchanged where there is no memory.
    pub fn close(&mut self, alloc: Global, reducers: &Reducers) -> Result<Batches, AllocError>
        ensures batches { IfOk result (λ batches. batches ≡ batches_of self.old) }
        ensures rest { OnOk result (self.new ≡ rest_of self.old) }
        ensures err { OnErr result (self.new ≡ self.old) }
    {
        let mut rest = Vec::new(alloc);
        let groups = grouped(alloc, self.held.as_slice(), &mut rest, reducers)?;
        let batches = batches_in(alloc, groups)?;
        self.held = rest;
        Ok(batches)
    }
}

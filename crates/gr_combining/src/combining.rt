//! The calls that wait to be combined, and the batches that are under way.
ghost use Rattle.std.specs.Prelude.{◌≡◌, ◌<◌, ◌++◌, ◌∷◌, [], IfOk, OnOk, length, option_map};
ghost use Rattle.gr_view.specs.Places.{at_place, put};
ghost use Rattle.gr_batch.specs.Batches.{batches_of, rest_of};
ghost use Rattle.gr_combining.specs.Combining.{closed, flown, joined, landed, no_batches};
ghost use Rattle.gr_combining.specs.CombiningView.{batches_in};

use crate::by_batch;
use gr_batch::{Batches, Combiner};
use gr_lang::{Calls, WaitingCall};
use gr_reduce::Reducers;
use gr_syntax::HEAP;
use std::alloc::{AllocError, Global};
use std::collections::BTreeMap;
use std::marker::Model;

/// The calls on keys that wait to be combined, by their object; the batches of this core that are under way, by
/// number; and the number of the next.
#[derive(Drop)]
pub struct Combining {
    /// One for each number of an object, the heap's included.
    combiners: Vec<Combiner>,
    flying: BTreeMap<u64, Calls>,
    next: u64,
}

impl Model for Combining {
    ghost use Rattle.gr_combining.specs.CombiningView.{CombiningData};

    ghost Value = { CombiningData };

    ghost view = { λ combining. record {
      combiners = combining.combiners.items;
      flying = combining.flying.entries;
      next = combining.next;
    } };
}

/// So many combiners with no calls.
fn no_combiners(alloc: Global, count: u64) -> Result<Vec<Combiner>, AllocError>
    ensures { IfOk result (λ combiners. at_place [] combiners.items ≡ (λ object. [])) }
{
    let mut combiners = Vec::new(alloc);
    'combiners: for _ in 0..count {
        combiners.push(Combiner::new(alloc))?;
    }
    Ok(combiners)
}

/// A call on a key joins the calls of a combiner.
#[tactic(auto, using(gr_view::proofs::Puts::at_lists))]
fn join_at(
    combiners: &mut [Combiner],
    object: usize,
    key: u64,
    call: WaitingCall,
) -> Result<(), AllocError>
    requires { object < length combiners.old }
    ensures { OnOk result (at_place [] combiners.new ≡ put (at_place [] combiners.old) object
        (at_place [] combiners.old object ++ record { key = key; call = call } ∷ [])) }
{
    combiners[object].join(key, call)
}

/// Closes a combiner.
#[tactic(auto, using(gr_view::proofs::Puts::at_lists))]
fn close_at(
    alloc: Global,
    combiners: &mut [Combiner],
    object: usize,
    reducers: &Reducers,
) -> Result<Batches, AllocError>
    requires { object < length combiners.old }
    ensures batches { IfOk result (λ batches.
        batches ≡ batches_of (at_place [] combiners.old object)) }
    ensures rest { OnOk result (at_place [] combiners.new
        ≡ put (at_place [] combiners.old) object (rest_of (at_place [] combiners.old object))) }
{
    combiners[object].close(alloc, reducers)
}

impl Combining {
    /// No calls and no batches.
    pub fn new(alloc: Global) -> Result<Combining, AllocError>
        ensures { IfOk result (λ combining. batches_in combining ≡ no_batches) }
    {
        let combiners = no_combiners(alloc, HEAP + 1)?;
        Ok(Combining {
            combiners,
            flying: by_batch::no_batches(alloc),
            next: 0,
        })
    }

    /// How many calls wait on an object.
    #[tactic(auto, using(gr_view::proofs::Puts::at_lists))]
    pub fn count(&self, object: u64) -> u64
        ensures { result ≡ length ((batches_in self.now).combiners object) }
    {
        match self.combiners.get(object as usize) {
            Some(combiner) => combiner.len(),
            None => 0,
        }
    }

    /// A call on a key joins the calls that wait on its object. It is an error where no object can have this
    /// number.
    pub fn join(&mut self, object: u64, key: u64, call: WaitingCall) -> Result<(), AllocError>
        ensures { OnOk result (batches_in self.new ≡ joined (batches_in self.old) object key call) }
    {
        if object < self.combiners.len() as u64 {
            join_at(&mut self.combiners, object as usize, key, call)
        } else {
            Err(AllocError)
        }
    }

    /// One batch for each key of the calls that wait on an object. The calls that don't fold stay. It is an error
    /// where no object can have this number.
    pub fn close(
        &mut self,
        alloc: Global,
        object: u64,
        reducers: &Reducers,
    ) -> Result<Batches, AllocError>
        ensures batches { IfOk result (λ batches.
            batches ≡ batches_of ((batches_in self.old).combiners object)) }
        ensures rest { OnOk result (batches_in self.new ≡ closed (batches_in self.old) object) }
    {
        if object < self.combiners.len() as u64 {
            close_at(alloc, &mut self.combiners, object as usize, reducers)
        } else {
            Err(AllocError)
        }
    }

    /// The calls are under way as a batch, whose number is answered. It is an error where numbers run out.
    pub fn fly(&mut self, calls: Calls) -> Result<u64, AllocError>
        ensures number { IfOk result (λ number. number ≡ (batches_in self.old).next) }
        ensures flown { OnOk result (batches_in self.new ≡ flown (batches_in self.old) calls) }
    {
        let number = self.next;
        let Some(next) = number.checked_add(1) else {
            return Err(AllocError);
        };
        by_batch::add(&mut self.flying, number, calls)?;
        self.next = next;
        Ok(number)
    }

    /// The number of the next batch.
    pub fn next(&self) -> u64
        ensures { result ≡ (batches_in self.now).next }
    {
        self.next
    }

    /// The calls of a batch that is under way.
    pub fn calls(&self, batch: u64) -> Option<&Calls>
        ensures { option_map (λ calls. calls.now) result ≡ (batches_in self.now).flying batch }
    {
        by_batch::find(&self.flying, batch)
    }

    /// The calls of a batch, which is under way no more.
    pub fn land(&mut self, batch: u64) -> Option<Calls>
        ensures calls { result ≡ (batches_in self.old).flying batch }
        ensures rest { batches_in self.new ≡ landed (batches_in self.old) batch }
    {
        by_batch::take(&mut self.flying, batch)
    }
}

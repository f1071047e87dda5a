//! The calls on each key, folded as far as they fold.
ghost use Rattle.std.specs.Prelude.{◌≡◌, [], IfOk, OnOk, not, unwrap_or};
ghost use Rattle.gr_batch.specs.Batches.{batch_of, grown, groups_of, no_group, rest_of};
ghost use Rattle.gr_batch.specs.GroupWords.{group_at, grow};

use crate::combiner::{Batch, Held};
use crate::folding::together;
use gr_lang::{Calls, Effect, WaitingCall};
use gr_reduce::Reducers;
use indexmap::IndexMap;
use std::alloc::{AllocError, Global};
use std::marker::Model;

/// The first calls on a key that fold, their effect, and whether no call on the key was left out.
#[derive(Drop)]
pub struct Group {
    effect: Effect,
    calls: Vec<WaitingCall>,
    is_open: bool,
}

impl Model for Group {
    ghost use Rattle.std.specs.Prelude.{List};
    ghost use Rattle.gr_batch.specs.Batches as batches;

    ghost Value = { batches.Group };

    ghost view = { λ g. record { effect = g.effect; calls = g.calls.items; is_open = g.is_open } };
}

impl Group {
    fn new(alloc: Global) -> Group
        ensures { result ≡ no_group }
    {
        Group {
            effect: Effect::Keep,
            calls: Vec::new(alloc),
            is_open: true,
        }
    }

    /// The batch of this key.
    pub fn into_batch(self, key: u64) -> Batch
        ensures { result ≡ batch_of (key, self) }
    {
        let Group {
            effect,
            calls,
            is_open: _,
        } = self;
        Batch {
            key,
            effect,
            calls: Calls::from_vec(calls),
        }
    }

    fn is_open(&self) -> bool
        ensures { result ≡ self.now.is_open }
    {
        self.is_open
    }

    /// Takes one more call in, if it folds and none was left out before.
    fn add(&mut self, call: WaitingCall, reducers: &Reducers) -> Result<(), AllocError>
        ensures { OnOk result (self.new ≡ grown self.old call) }
    {
        if self.is_open {
            match together(self.effect, call.op.effect(), reducers) {
                Some(effect) => {
                    self.calls.push(call)?;
                    self.effect = effect;
                }
                None => self.is_open = false,
            }
        }
        Ok(())
    }
}

fn group_or_new(taken: Option<Group>, alloc: Global) -> Group
    ensures { result ≡ unwrap_or taken no_group }
{
    match taken {
        Some(group) => group,
        None => Group::new(alloc),
    }
}

/// Adds a call to the group of its key, and answers whether it was left out.
fn add(
    groups: &mut IndexMap<u64, Group>,
    alloc: Global,
    key: u64,
    call: WaitingCall,
    reducers: &Reducers,
) -> Result<bool, AllocError>
    ensures { IfOk result (λ stays. (groups.new.entries ≡ grow key call groups.old.entries)
        × (stays ≡ not (grown (group_at key groups.old.entries) call).is_open)) }
{
    let fresh = Group::new(alloc);
    let taken = match groups.insert(key, fresh) {
        Ok(taken) => taken,
        Err(_) => return Err(AllocError),
    };
    let mut group = group_or_new(taken, alloc);
    group.add(call, reducers)?;
    let stays = !group.is_open();
    match groups.insert(key, group) {
        Ok(_) => Ok(stays),
        Err(_) => Err(AllocError),
    }
}

/// One group for each key, in the order of first appearance. The calls that were left out go into rest, in
/// their order.
pub fn grouped(
    alloc: Global,
    held: &[Held],
    rest: &mut Vec<Held>,
    reducers: &Reducers,
) -> Result<IndexMap<u64, Group>, AllocError>
    requires { rest.old.items ≡ [] }
    ensures groups { IfOk result (λ groups. groups.entries ≡ groups_of held.now) }
    ensures rest { OnOk result (rest.new.items ≡ rest_of held.now) }
{
    let mut groups = IndexMap::new(alloc);
    for one in held {
        let stays = add(&mut groups, alloc, one.key, one.call, reducers)?;
        if stays {
            rest.push(*one)?;
        }
    }
    Ok(groups)
}

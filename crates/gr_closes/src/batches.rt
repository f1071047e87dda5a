//! Batches that go off to the homes of their keys.
ghost use Rattle.std.specs.Prelude.{◌≡◌, OnOk, Some};
ghost use Rattle.gr_machine.specs.Closes.{batch_home, batch_sent, with_flying};
ghost use Rattle.gr_machine.specs.Machines.{thing};
ghost use Rattle.gr_objects.specs.Kinds.{batch_home_by};
ghost use Rattle.gr_courses.specs.Folds.{batches_from};
ghost use Rattle.gr_courses.specs.Seen.{does_to, with_body};
ghost use Rattle.gr_state.specs.StateView.{seen_of};

use gr_batch::{Batch, Batches};
use gr_code::Shape;
use gr_lang::Calls;
use gr_machine::{Mark, Waits};
use gr_msg::Msg;
use gr_objects::shape;
use gr_state::State;
use std::alloc::AllocError;

/// The home of a batch on an object of this shape: that of its key in a set or map, and else that of the word at the
/// address.
fn home_by(state: &State, shape: Option<Shape>, key: u64) -> u64
    ensures { result ≡ batch_home_by (seen_of state.now).machine shape key }
{
    match shape {
        Some(Shape::Set | Shape::Map) => key % state.posts.setup().cores,
        _ => state.posts.home(key),
    }
}

/// The home of a batch on an object.
#[tactic(auto, using(gr_objects::proofs::ByShape::by_shape))]
fn home(state: &State, object: u64, key: u64) -> u64
    ensures { let machine = (seen_of state.now).machine in
        result ≡ batch_home machine (thing machine object) key }
{
    home_by(state, shape(state.slots.code(), object), key)
}

/// The calls are under way as the batch of the next number.
fn fly(state: &mut State, calls: Calls) -> Result<(), AllocError>
    ensures { OnOk result (let s = seen_of state.old in seen_of state.new
        ≡ with_body s (with_flying s.core.body calls)) }
{
    state.combining.fly(calls)?;
    Ok(())
}

/// A batch goes off: it is marked with its calls, whose tasks wait for it from now on.
fn send_batch(state: &mut State, object: u64, batch: Batch) -> Result<(), AllocError>
    ensures { OnOk result (let s = seen_of state.old in seen_of state.new
        ≡ does_to s (Some (batch_sent s.machine s.core.body object batch))) }
{
    let Batch { key, effect, calls } = batch;
    let to = home(state, object, key);
    let number = state.combining.next();
    let closed = calls.copy()?;
    state.rewait_all(Waits::Batch { batch: number }, calls.as_slice());
    fly(state, calls)?;
    state.mark(Mark::Closed {
        batch: number,
        calls: closed,
    })?;
    state.send(
        to,
        Msg::Batch {
            object,
            key,
            effect,
            batch: number,
        },
    )
}

/// Some batches go off, one after another.
pub fn send_batches(state: &mut State, object: u64, batches: Batches) -> Result<(), AllocError>
    ensures { OnOk result (seen_of state.new ≡ batches_from object (seen_of state.old) batches) }
{
    for batch in batches.into_vec() {
        send_batch(state, object, batch)?;
    }
    Ok(())
}

//! Batches, which take effect at the home of their key or word, and the replies to their calls.
ghost use Rattle.std.specs.Prelude.{◌≡◌, OnOk, Some};
ghost use Rattle.std.specs.List.{list_all, list_any};
ghost use Rattle.gr_machine.specs.BatchServes.{applied, batch_replied, batched, can_wake};
ghost use Rattle.gr_machine.specs.BatchServes.{is_reduce, key_batch, word_applied, word_batch};
ghost use Rattle.gr_machine.specs.Machines.{thing};
ghost use Rattle.gr_machine.specs.Slots.{awaits_batch, named_awaits};
ghost use Rattle.gr_courses.specs.Seen.{does_to};
ghost use Rattle.gr_objects.specs.Kinds.{batched_by};
ghost use Rattle.gr_slots.specs.SlotView.{held_in};
ghost use Rattle.gr_state.specs.StateView.{seen_of};

use gr_batch::replies;
use gr_code::Shape;
use gr_lang::{Effect, Op, WaitingCall};
use gr_machine::Mark;
use gr_msg::Msg;
use gr_objects::{is_reducer, shape};
use gr_reduce::Reducers;
use gr_slots::Slots;
use gr_state::State;
use gr_store::{is_of_map, is_of_set};
use gr_syntax::HEAP;
use std::alloc::AllocError;

/// A batch as it comes: its number at the core that it comes from, and its effect on a key of an
/// object, or on the word whose address is the key.
#[derive(Clone, Copy)]
pub struct Arrival {
    pub from: u64,
    pub batch: u64,
    pub object: u64,
    pub key: u64,
    pub effect: Effect,
}

/// The batch took effect: what stood there before is marked, and sent back.
fn tell(state: &mut State, from: u64, batch: u64, before: Option<u64>) -> Result<(), AllocError>
    ensures { OnOk result (let s = seen_of state.old in seen_of state.new
        ≡ does_to s (Some (applied s.core.body from batch before))) }
{
    state.mark(Mark::Applied {
        origin: from,
        batch,
        before,
    })?;
    state.send(from, Msg::BatchReply { batch, before })
}

/// The word at a place of this core is folded with another one, where there is one.
fn fold_at(
    state: &mut State,
    arrival: Arrival,
    place: u64,
    reducer: u64,
    word: u64,
    reducers: &Reducers,
) -> Result<(), AllocError>
    ensures { OnOk result (let s = seen_of state.old in seen_of state.new ≡ does_to s
        (word_applied s.core.body arrival.from place (Effect.Fold reducer word) arrival.batch
        (s.core.body.words.segment place))) }
{
    let Some(before) = state.store.word(place) else {
        return Ok(());
    };
    let after = reducers.apply(reducer, before, word);
    state.store.set_word(place, after);
    tell(state, arrival.from, arrival.batch, Some(before))
}

/// A batch on the word whose address is its key, where a reducer folds and the word's home is here.
fn apply_to_word(state: &mut State, arrival: Arrival, reducers: &Reducers) -> Result<(), AllocError>
    ensures { OnOk result (let s = seen_of state.old in seen_of state.new ≡ does_to s
        (word_batch s.machine s.me s.core.body arrival.from arrival.key arrival.effect
        arrival.batch)) }
{
    let Effect::Fold { reducer, word } = arrival.effect else {
        return Ok(());
    };
    if is_reducer(reducer) && state.posts.home(arrival.key) == state.posts.me() {
        let place = state.posts.place(arrival.key);
        return fold_at(state, arrival, place, reducer, word, reducers);
    }
    Ok(())
}

/// A batch on a key of a set or a map, where it has an effect of calls on that.
fn apply_to_key(
    state: &mut State,
    arrival: Arrival,
    is_fit: bool,
    reducers: &Reducers,
) -> Result<(), AllocError>
    ensures { OnOk result (let s = seen_of state.old in seen_of state.new ≡ does_to s
        (key_batch s.core.body arrival.from arrival.object arrival.key arrival.effect
        arrival.batch is_fit)) }
{
    if is_fit {
        let Arrival {
            from,
            batch,
            object,
            key,
            effect,
        } = arrival;
        let before = state.store.apply(object, key, effect, reducers)?;
        return tell(state, from, batch, before);
    }
    Ok(())
}

/// A batch on an object of this shape; the heap has none.
fn apply_by(
    state: &mut State,
    shape: Option<Shape>,
    arrival: Arrival,
    reducers: &Reducers,
) -> Result<(), AllocError>
    ensures { OnOk result (let s = seen_of state.old in seen_of state.new ≡ does_to s
        (batched_by s.machine s.me s.core.body arrival.from arrival.object arrival.key arrival.effect
        arrival.batch shape)) }
{
    match shape {
        Some(Shape::Words { .. }) => apply_to_word(state, arrival, reducers),
        Some(Shape::Set) => apply_to_key(state, arrival, is_of_set(arrival.effect), reducers),
        Some(Shape::Map) => apply_to_key(state, arrival, is_of_map(arrival.effect), reducers),
        Some(Shape::Vector) => Ok(()),
        None => {
            if arrival.object == HEAP {
                return apply_to_word(state, arrival, reducers);
            }
            Ok(())
        }
    }
}

/// A batch on an array, the heap, a set or a map takes effect.
#[tactic(auto, using(gr_objects::proofs::ByShape::by_shape))]
pub fn apply(state: &mut State, arrival: Arrival, reducers: &Reducers) -> Result<(), AllocError>
    ensures { OnOk result (let s = seen_of state.old in seen_of state.new ≡ does_to s
        (batched s.machine s.me s.core.body arrival.from arrival.object arrival.key arrival.effect
        arrival.batch (thing s.machine arrival.object))) }
{
    let shape = shape(state.slots.code(), arrival.object);
    apply_by(state, shape, arrival, reducers)
}

/// Whether the task of each call waits for this batch.
fn all_wait(slots: &Slots, batch: u64, calls: &[WaitingCall]) -> bool
    ensures { result ≡ list_all (λ call. named_awaits (awaits_batch batch) call.id
        ((held_in slots.now).tasks.slots call.slot)) calls.now }
{
    calls
        .iter()
        .all(|call| slots.awaits_batch(call.slot, call.id, batch))
}

fn is_reduce(call: Op) -> bool
    ensures { result ≡ is_reduce call }
{
    matches!(call, Op::Reduce { .. })
}

/// Whether one of the calls is a reduce.
fn has_reduce(calls: &[WaitingCall]) -> bool
    ensures { result ≡ list_any (λ call. is_reduce call.op) calls.now }
{
    calls.iter().any(|call| is_reduce(call.op))
}

/// Whether all calls of the batch wait for it, and with a reduce among them there was a word.
fn can_wake(state: &State, batch: u64, before: Option<u64>, calls: &[WaitingCall]) -> bool
    ensures { result ≡ can_wake (seen_of state.now).core.body batch before calls.now }
{
    all_wait(&state.slots, batch, calls) && (before.is_some() || !has_reduce(calls))
}

/// Each call of a batch of this core, in order, gets the reply that it has after those before it,
/// and the batch is under way no more.
pub fn wake(
    state: &mut State,
    batch: u64,
    before: Option<u64>,
    reducers: &Reducers,
) -> Result<(), AllocError>
    ensures { OnOk result (let s = seen_of state.old in seen_of state.new ≡ does_to s
        (batch_replied s.machine s.core.body batch before (s.core.body.batches.flying batch))) }
{
    let Some(calls) = state.combining.calls(batch) else {
        return Ok(());
    };
    if !can_wake(state, batch, before, calls.as_slice()) {
        return Ok(());
    }
    let wakes = replies(state.alloc, calls, before, reducers)?;
    state.resume_all(wakes.as_slice())?;
    let _ = state.combining.land(batch);
    Ok(())
}

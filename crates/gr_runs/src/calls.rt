//! A ready task makes a call.
ghost use Rattle.std.specs.Prelude.{◌≡◌, OnOk};
ghost use Rattle.gr_machine.specs.Calls.{call_asked, called, joins, key_joins, reduce_joins, vector_joins, word_asked};
ghost use Rattle.gr_machine.specs.Calls.{is_reducer as is_reducer_of};
ghost use Rattle.gr_courses.specs.Seen.{acts_at};
ghost use Rattle.gr_runs.specs.RunWords.{address_in};
ghost use Rattle.gr_state.specs.StateView.{seen_of};

use crate::waiting::remove;
use gr_lang::{Op, WaitingCall};
use gr_machine::Waits;
use gr_msg::Msg;
use gr_objects::{address, is_keyed, is_reducer};
use gr_state::State;
use std::alloc::AllocError;

/// The call of this number is asked of a core, and the task in the slot waits for the reply.
fn ask(
    state: &mut State,
    slot: u64,
    core: u64,
    operation: u64,
    x: u64,
    y: u64,
    z: u64,
) -> Result<(), AllocError>
    ensures { OnOk result (let s = seen_of state.old in seen_of state.new
        ≡ acts_at s slot (λ task. call_asked s.core.body slot task core operation x y z)) }
{
    let Some(task) = state.slots.get(slot) else {
        return Ok(());
    };
    let id = task.id;
    state.slots.wait(slot, Waits::Reply);
    state.send(
        core,
        Msg::Request {
            slot,
            id,
            operation,
            x,
            y,
            z,
        },
    )
}

/// A call on a word is asked of the word's home, where there is an address.
fn ask_at(
    state: &mut State,
    slot: u64,
    operation: u64,
    y: u64,
    z: u64,
    at: Option<u64>,
) -> Result<(), AllocError>
    ensures { OnOk result (let s = seen_of state.old in seen_of state.new
        ≡ acts_at s slot (λ task. word_asked s.machine s.core.body slot task operation y z at)) }
{
    match at {
        None => {
            remove(state, slot);
            Ok(())
        }
        Some(at) => {
            let home = state.posts.home(at);
            ask(state, slot, home, operation, at, y, z)
        }
    }
}

/// A call on a place of an object is asked of the home of the word there.
fn ask_word(
    state: &mut State,
    slot: u64,
    object: u64,
    place: u64,
    operation: u64,
    y: u64,
    z: u64,
) -> Result<(), AllocError>
    ensures { OnOk result (let s = seen_of state.old in seen_of state.new ≡ acts_at s slot (λ task.
        word_asked s.machine s.core.body slot task operation y z (address_in s object place))) }
{
    let at = address(state.slots.code(), object, place);
    ask_at(state, slot, operation, y, z, at)
}

/// A call on a key joins the calls that wait on its object.
fn join(state: &mut State, slot: u64, op: Op, object: u64, key: u64) -> Result<(), AllocError>
    ensures { OnOk result (let s = seen_of state.old in seen_of state.new
        ≡ acts_at s slot (λ task. joins s.core.body slot task op object key)) }
{
    let Some(task) = state.slots.get(slot) else {
        return Ok(());
    };
    let id = task.id;
    state
        .combining
        .join(object, key, WaitingCall { slot, id, op })?;
    state.slots.wait(slot, Waits::Close { object });
    Ok(())
}

/// So does a call on a set or a map, where it is one of what the object is.
fn join_key(state: &mut State, slot: u64, op: Op, object: u64, key: u64) -> Result<(), AllocError>
    ensures { OnOk result (let s = seen_of state.old in seen_of state.new
        ≡ acts_at s slot (λ task. key_joins s.machine s.core.body slot task op object key)) }
{
    if is_keyed(state.slots.code(), op, object) {
        join(state, slot, op, object, key)
    } else {
        remove(state, slot);
        Ok(())
    }
}

/// So does a reduce, whose key is the address of its word, where there are the reducer and the address.
fn join_word(
    state: &mut State,
    slot: u64,
    op: Op,
    object: u64,
    reduces: bool,
    at: Option<u64>,
) -> Result<(), AllocError>
    ensures { OnOk result (let s = seen_of state.old in seen_of state.new
        ≡ acts_at s slot (λ task. reduce_joins s.core.body slot task op object reduces at)) }
{
    match at {
        Some(at) if reduces => join(state, slot, op, object, at),
        _ => {
            remove(state, slot);
            Ok(())
        }
    }
}

/// The word of a reduce is at a place of its object.
fn reduce(
    state: &mut State,
    slot: u64,
    op: Op,
    object: u64,
    reducer: u64,
    place: u64,
) -> Result<(), AllocError>
    ensures { OnOk result (let s = seen_of state.old in seen_of state.new ≡ acts_at s slot
        (λ task. reduce_joins s.core.body slot task op object
        (is_reducer_of reducer) (address_in s object place))) }
{
    let at = address(state.slots.code(), object, place);
    join_word(state, slot, op, object, is_reducer(reducer), at)
}

/// A call on a vector joins the calls that wait on it, where there is such a vector.
fn join_vector(state: &mut State, slot: u64, op: Op, object: u64) -> Result<(), AllocError>
    ensures { OnOk result (let s = seen_of state.old in seen_of state.new ≡ acts_at s slot
        (λ task. vector_joins s.core.body slot task op object
        (s.core.body.vectors.vectors object))) }
{
    let Some(task) = state.slots.get(slot) else {
        return Ok(());
    };
    let id = task.id;
    if state.vectors.get(object).is_none() {
        state.slots.remove(slot);
        return Ok(());
    }
    state.vectors.join(object, WaitingCall { slot, id, op })?;
    state.slots.wait(slot, Waits::Close { object });
    Ok(())
}

/// The task in a slot makes this call. Requests number the calls that are asked: 1 read, 2 write, 3 add, 4 cas,
/// 5 alloc, 6 free, 7 print.
pub fn call(state: &mut State, slot: u64, op: Op) -> Result<(), AllocError>
    ensures { OnOk result (let s = seen_of state.old in seen_of state.new
        ≡ acts_at s slot (λ task. called s.machine s.core.body slot task op)) }
{
    match op {
        Op::Read { object, place } => ask_word(state, slot, object, place, 1, 0, 0),
        Op::Write {
            object,
            place,
            word,
        } => ask_word(state, slot, object, place, 2, word, 0),
        Op::Add {
            object,
            place,
            word,
        } => ask_word(state, slot, object, place, 3, word, 0),
        Op::Cas {
            object,
            place,
            old,
            new,
        } => ask_word(state, slot, object, place, 4, old, new),
        Op::Reduce {
            object,
            reducer,
            place,
            ..
        } => reduce(state, slot, op, object, reducer, place),
        Op::Insert { object, key } => join_key(state, slot, op, object, key),
        Op::Remove { object, key } => join_key(state, slot, op, object, key),
        Op::Has { object, key } => join_key(state, slot, op, object, key),
        Op::Put { object, key, .. } => join_key(state, slot, op, object, key),
        Op::Get { object, key } => join_key(state, slot, op, object, key),
        Op::Erase { object, key } => join_key(state, slot, op, object, key),
        Op::Merge { object, key, .. } => join_key(state, slot, op, object, key),
        Op::Push { object, .. } => join_vector(state, slot, op, object),
        Op::Pop { object } => join_vector(state, slot, op, object),
        Op::Dequeue { object } => join_vector(state, slot, op, object),
        Op::Alloc { count } => ask(state, slot, 0, 5, count, 0, 0),
        Op::Free { place } => ask(state, slot, 0, 6, place, 0, 0),
        Op::Print { word } => ask(state, slot, 0, 7, word, 0, 0),
    }
}

//! What a core does with a letter, by the kind of its message.
ghost use Rattle.std.specs.Prelude.{◌≡◌, OnOk};
ghost use Rattle.gr_machine.specs.Serves.{serves};
ghost use Rattle.gr_courses.specs.Courses.{gives_to, served_from, settled_by, settling};
ghost use Rattle.gr_courses.specs.Seen.{does_to};
ghost use Rattle.gr_state.specs.StateView.{seen_of};
ghost use Rattle.gr_serves.specs.Heaps.{KnowsHeap};
ghost use Rattle.gr_serves.specs.MessageWords.{IsOfBatches, IsOfCalls, IsOfTurns};

use crate::batches::{self, Arrival};
use crate::requests::{self, Caller};
use crate::{scopes, steals};
use gr_lang::Reply;
use gr_msg::Msg;
use gr_posts::Letter;
use gr_reduce::Reducers;
use gr_state::State;
use std::alloc::AllocError;

/// The vector of which a turn may be finished after a message.
fn settling(message: &Msg) -> Option<u64>
    ensures { result ≡ settling message.now }
{
    match message {
        Msg::Grant { vector, .. } | Msg::ElemAck { vector, .. } => Some(*vector),
        _ => None,
    }
}

/// A turn at the vector is finished, if nothing is left of it.
fn settle(state: &mut State, vector: Option<u64>) -> Result<(), AllocError>
    ensures { OnOk result (let s = seen_of state.old in seen_of state.new
        ≡ does_to s (settled_by s.machine s.core.body vector)) }
{
    match vector {
        Some(vector) => gr_grants::settle(state, vector),
        None => Ok(()),
    }
}

/// What is done with a requested call, or with the reply to one.
fn serve_call(state: &mut State, from: u64, message: Msg) -> Result<(), AllocError>
    requires message { IsOfCalls message }
    requires heap { KnowsHeap (seen_of state.old) }
    ensures { OnOk result (let s = seen_of state.old in seen_of state.new
        ≡ does_to s (serves s.machine s.me s.core.body from message)) }
{
    match message {
        Msg::Request {
            slot,
            id,
            operation,
            x,
            y,
            z,
        } => {
            let caller = Caller {
                core: from,
                slot,
                id,
            };
            requests::request(state, caller, operation, x, y, z)
        }
        Msg::Reply {
            slot,
            id,
            first,
            second,
        } => requests::reply(state, slot, id, Reply { first, second }),
        _ => unreachable!(),
    }
}

/// What is done with a batch, or with the reply to one.
fn serve_batch(
    state: &mut State,
    from: u64,
    message: Msg,
    reducers: &Reducers,
) -> Result<(), AllocError>
    requires { IsOfBatches message }
    ensures { OnOk result (let s = seen_of state.old in seen_of state.new
        ≡ does_to s (serves s.machine s.me s.core.body from message)) }
{
    match message {
        Msg::Batch {
            object,
            key,
            effect,
            batch,
        } => {
            let arrival = Arrival {
                from,
                batch,
                object,
                key,
                effect,
            };
            batches::apply(state, arrival, reducers)
        }
        Msg::BatchReply { batch, before } => batches::wake(state, batch, before, reducers),
        _ => unreachable!(),
    }
}

/// What is done with a message of turns at a vector.
fn serve_turn(state: &mut State, from: u64, message: Msg) -> Result<(), AllocError>
    requires { IsOfTurns message }
    ensures { OnOk result (let s = seen_of state.old in seen_of state.new
        ≡ does_to s (serves s.machine s.me s.core.body from message)) }
{
    match message {
        Msg::Turn { vector } => gr_grants::ask(state, from, vector),
        Msg::Grant { vector, head, tail } => gr_grants::grant(state, vector, head, tail),
        Msg::Done { vector, head, tail } => gr_grants::done(state, vector, head, tail),
        Msg::ElemPut {
            vector,
            position,
            word,
        } => gr_grants::store(state, from, vector, position, word),
        Msg::ElemGet { vector, position } => gr_grants::fetch(state, from, vector, position),
        Msg::ElemAck {
            vector,
            position,
            got,
        } => gr_grants::answer(state, vector, position, got),
        _ => unreachable!(),
    }
}

/// What is done with a message, by its kind. Where there is nothing to act on, all stays.
fn serve_message(
    state: &mut State,
    from: u64,
    message: Msg,
    reducers: &Reducers,
) -> Result<(), AllocError>
    requires { KnowsHeap (seen_of state.old) }
    ensures { OnOk result (let s = seen_of state.old in seen_of state.new
        ≡ does_to s (serves s.machine s.me s.core.body from message)) }
{
    match message {
        Msg::Request { .. } | Msg::Reply { .. } => serve_call(state, from, message),
        Msg::Spawn { unit } => scopes::spawn(state, unit),
        Msg::Enrol { scope } => scopes::enrol(state, from, scope),
        Msg::EnrolAck { scope } => scopes::count(state, scope),
        Msg::Complete { scope, count } => scopes::complete(state, scope, count),
        Msg::Leave { scope } => scopes::leave(state, scope),
        Msg::StealAsk => steals::wait(state, from),
        Msg::StealGive { unit } => steals::take(state, from, unit),
        Msg::Batch { .. } | Msg::BatchReply { .. } => serve_batch(state, from, message, reducers),
        Msg::Turn { .. }
        | Msg::Grant { .. }
        | Msg::Done { .. }
        | Msg::ElemPut { .. }
        | Msg::ElemGet { .. }
        | Msg::ElemAck { .. } => serve_turn(state, from, message),
    }
}

/// The first letter is served, and is in the inbox no more; a turn of which nothing is left is
/// finished.
fn serve_first(state: &mut State, reducers: &Reducers) -> Result<(), AllocError>
    requires { KnowsHeap (seen_of state.old) }
    ensures { OnOk result (let s = seen_of state.old in seen_of state.new
        ≡ served_from s s.core.inbox) }
{
    let Some(letter) = state.posts.next() else {
        return Ok(());
    };
    let Letter { from, message } = letter;
    let vector = settling(&message);
    serve_message(state, from, message, reducers)?;
    settle(state, vector)
}

/// The first letter is served, and is in the inbox no more; a turn of which nothing is left is
/// finished; then units are given.
pub fn serve(state: &mut State, reducers: &Reducers) -> Result<(), AllocError>
    requires { KnowsHeap (seen_of state.old) }
    ensures { OnOk result (let s = seen_of state.old in seen_of state.new
        ≡ gives_to (served_from s s.core.inbox)) }
{
    serve_first(state, reducers)?;
    state.give()
}

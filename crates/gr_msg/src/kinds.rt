//! Messages, as they are read.
ghost use Rattle.std.specs.Prelude.{◌≡◌};
ghost use Rattle.gr_format.specs.Formats.{times};
ghost use Rattle.gr_format.specs.Readers.{Reads};
ghost use Rattle.gr_msg.specs.Messages as format;
ghost use Rattle.gr_msg.specs.Parts.{words_of};

use crate::message::{Messages, Msg};
use crate::opened::{MAX_CLOCK, MAX_MESSAGES, Opened};
use crate::parts::{any_word, effect, object, optional, scope_id, task_id, used, vector};
use crate::units::work_unit;
use gr_format::{FormatError, byte, pair, word};
use std::alloc::Global;

/// How many words a requested operation has.
fn words_of(operation: u64) -> u64
    ensures { result ≡ words_of operation }
{
    match operation {
        4 => 3,
        2 | 3 => 2,
        _ => 1,
    }
}

/// A call for a task in a slot.
#[tactic(auto, using(crate::proofs::Steps::steps), unfolding(crate::specs::Messages::request))]
fn request(bytes: &[u8]) -> Result<(Msg, &[u8]), FormatError>
    ensures { Reads format.request bytes.now result }
{
    let (slot, rest) = any_word(bytes)?;
    let (id, rest) = task_id(rest)?;
    let (operation, rest) = byte(rest, 1, 7)?;
    let (x, rest) = any_word(rest)?;
    let (y, rest) = used(rest, 2 <= words_of(operation))?;
    let (z, rest) = used(rest, 3 <= words_of(operation))?;
    Ok((
        Msg::Request {
            slot,
            id,
            operation,
            x,
            y,
            z,
        },
        rest,
    ))
}

/// A reply to a request.
#[tactic(auto, using(crate::proofs::Steps::steps), unfolding(crate::specs::Messages::reply))]
fn reply(bytes: &[u8]) -> Result<(Msg, &[u8]), FormatError>
    ensures { Reads format.reply bytes.now result }
{
    let (slot, rest) = any_word(bytes)?;
    let (id, rest) = task_id(rest)?;
    let (first, rest) = any_word(rest)?;
    let (second, rest) = any_word(rest)?;
    Ok((
        Msg::Reply {
            slot,
            id,
            first,
            second,
        },
        rest,
    ))
}

/// Work for the core that takes it.
#[tactic(auto, using(crate::proofs::Steps::steps), unfolding(crate::specs::Messages::spawn))]
fn spawn(alloc: Global, bytes: &[u8]) -> Result<(Msg, &[u8]), FormatError>
    ensures { Reads format.spawn bytes.now result }
{
    let (unit, rest) = work_unit(alloc, bytes)?;
    Ok((Msg::Spawn { unit }, rest))
}

/// An enrolment.
#[tactic(auto, using(crate::proofs::Steps::steps), unfolding(crate::specs::Messages::enrol))]
fn enrol(bytes: &[u8]) -> Result<(Msg, &[u8]), FormatError>
    ensures { Reads format.enrol bytes.now result }
{
    let (scope, rest) = scope_id(bytes)?;
    Ok((Msg::Enrol { scope }, rest))
}

/// The answer to an enrolment.
#[tactic(auto, using(crate::proofs::Steps::steps), unfolding(crate::specs::Messages::enrol_ack))]
fn enrol_ack(bytes: &[u8]) -> Result<(Msg, &[u8]), FormatError>
    ensures { Reads format.enrol_ack bytes.now result }
{
    let (scope, rest) = scope_id(bytes)?;
    Ok((Msg::EnrolAck { scope }, rest))
}

/// Tasks that have ended.
#[tactic(auto, using(crate::proofs::Steps::steps), unfolding(crate::specs::Messages::complete))]
fn complete(bytes: &[u8]) -> Result<(Msg, &[u8]), FormatError>
    ensures { Reads format.complete bytes.now result }
{
    let (scope, rest) = scope_id(bytes)?;
    let (count, rest) = word(rest, 1, u64::MAX)?;
    Ok((Msg::Complete { scope, count }, rest))
}

/// The end of a core's part in a scope.
#[tactic(auto, using(crate::proofs::Steps::steps), unfolding(crate::specs::Messages::leave))]
fn leave(bytes: &[u8]) -> Result<(Msg, &[u8]), FormatError>
    ensures { Reads format.leave bytes.now result }
{
    let (scope, rest) = scope_id(bytes)?;
    Ok((Msg::Leave { scope }, rest))
}

/// A unit for the core that asked.
#[tactic(auto, using(crate::proofs::Steps::steps), unfolding(crate::specs::Messages::steal_give))]
fn steal_give(alloc: Global, bytes: &[u8]) -> Result<(Msg, &[u8]), FormatError>
    ensures { Reads format.steal_give bytes.now result }
{
    let (unit, rest) = work_unit(alloc, bytes)?;
    Ok((Msg::StealGive { unit }, rest))
}

/// A batch.
#[tactic(auto, using(crate::proofs::Steps::steps), unfolding(crate::specs::Messages::batch))]
fn batch(bytes: &[u8]) -> Result<(Msg, &[u8]), FormatError>
    ensures { Reads format.batch bytes.now result }
{
    let (object, rest) = object(bytes)?;
    let (key, rest) = any_word(rest)?;
    let (effect, rest) = effect(rest)?;
    let (batch, rest) = any_word(rest)?;
    Ok((
        Msg::Batch {
            object,
            key,
            effect,
            batch,
        },
        rest,
    ))
}

/// The answer to a batch.
#[tactic(auto, using(crate::proofs::Steps::steps), unfolding(crate::specs::Messages::batch_reply))]
fn batch_reply(bytes: &[u8]) -> Result<(Msg, &[u8]), FormatError>
    ensures { Reads format.batch_reply bytes.now result }
{
    let (batch, rest) = any_word(bytes)?;
    let (before, rest) = optional(rest)?;
    Ok((Msg::BatchReply { batch, before }, rest))
}

/// A question for a turn.
#[tactic(auto, using(crate::proofs::Steps::steps), unfolding(crate::specs::Messages::turn))]
fn turn(bytes: &[u8]) -> Result<(Msg, &[u8]), FormatError>
    ensures { Reads format.turn bytes.now result }
{
    let (vector, rest) = vector(bytes)?;
    Ok((Msg::Turn { vector }, rest))
}

/// A turn.
#[tactic(auto, using(crate::proofs::Steps::steps), unfolding(crate::specs::Messages::grant))]
fn grant(bytes: &[u8]) -> Result<(Msg, &[u8]), FormatError>
    ensures { Reads format.grant bytes.now result }
{
    let (vector, rest) = vector(bytes)?;
    let (head, rest) = any_word(rest)?;
    let (tail, rest) = word(rest, head, u64::MAX)?;
    Ok((Msg::Grant { vector, head, tail }, rest))
}

/// The end of a turn.
#[tactic(auto, using(crate::proofs::Steps::steps), unfolding(crate::specs::Messages::done))]
fn done(bytes: &[u8]) -> Result<(Msg, &[u8]), FormatError>
    ensures { Reads format.done bytes.now result }
{
    let (vector, rest) = vector(bytes)?;
    let (head, rest) = any_word(rest)?;
    let (tail, rest) = word(rest, head, u64::MAX)?;
    Ok((Msg::Done { vector, head, tail }, rest))
}

/// A word for a position.
#[tactic(auto, using(crate::proofs::Steps::steps), unfolding(crate::specs::Messages::elem_put))]
fn elem_put(bytes: &[u8]) -> Result<(Msg, &[u8]), FormatError>
    ensures { Reads format.elem_put bytes.now result }
{
    let (vector, rest) = vector(bytes)?;
    let (position, rest) = any_word(rest)?;
    let (word, rest) = any_word(rest)?;
    Ok((
        Msg::ElemPut {
            vector,
            position,
            word,
        },
        rest,
    ))
}

/// A question for the word at a position.
#[tactic(auto, using(crate::proofs::Steps::steps), unfolding(crate::specs::Messages::elem_get))]
fn elem_get(bytes: &[u8]) -> Result<(Msg, &[u8]), FormatError>
    ensures { Reads format.elem_get bytes.now result }
{
    let (vector, rest) = vector(bytes)?;
    let (position, rest) = any_word(rest)?;
    Ok((Msg::ElemGet { vector, position }, rest))
}

/// The answer of a position.
#[tactic(auto, using(crate::proofs::Steps::steps), unfolding(crate::specs::Messages::elem_ack))]
fn elem_ack(bytes: &[u8]) -> Result<(Msg, &[u8]), FormatError>
    ensures { Reads format.elem_ack bytes.now result }
{
    let (vector, rest) = vector(bytes)?;
    let (position, rest) = any_word(rest)?;
    let (got, rest) = optional(rest)?;
    Ok((
        Msg::ElemAck {
            vector,
            position,
            got,
        },
        rest,
    ))
}

/// What stands behind the kind of a message.
#[tactic(auto, using(crate::proofs::Steps::steps), unfolding(crate::specs::Messages::of_kind))]
fn of_kind(alloc: Global, bytes: &[u8], kind: u64) -> Result<(Msg, &[u8]), FormatError>
    ensures { Reads (format.of_kind kind) bytes.now result }
{
    match kind {
        1 => request(bytes),
        2 => reply(bytes),
        3 => spawn(alloc, bytes),
        4 => enrol(bytes),
        5 => enrol_ack(bytes),
        6 => complete(bytes),
        7 => leave(bytes),
        8 => Ok((Msg::StealAsk, bytes)),
        9 => steal_give(alloc, bytes),
        11 => batch(bytes),
        12 => batch_reply(bytes),
        13 => turn(bytes),
        14 => grant(bytes),
        15 => elem_put(bytes),
        16 => elem_get(bytes),
        17 => elem_ack(bytes),
        _ => done(bytes),
    }
}

/// Whether there is such a kind.
fn is_kind(number: u64) -> bool
    ensures { result ≡ format.is_kind number }
{
    matches!(number, 1..=9 | 11..=18)
}

/// The kind of a message.
#[tactic(auto, using(crate::proofs::Steps::kinds))]
fn kind(bytes: &[u8]) -> Result<(u64, &[u8]), FormatError>
    ensures { Reads format.kind bytes.now result }
{
    let (number, rest) = byte(bytes, 1, 18)?;
    if is_kind(number) {
        Ok((number, rest))
    } else {
        Err(FormatError::Fault { left: bytes.len() })
    }
}

/// A message.
#[tactic(auto, using(crate::proofs::Steps::steps), unfolding(crate::specs::Messages::message))]
fn message(alloc: Global, bytes: &[u8]) -> Result<(Msg, &[u8]), FormatError>
    ensures { Reads format.message bytes.now result }
{
    let (kind, rest) = kind(bytes)?;
    let (message, rest) = of_kind(alloc, rest, kind)?;
    Ok((message, rest))
}

/// So many messages.
fn messages(alloc: Global, bytes: &[u8], count: u64) -> Result<(Messages, &[u8]), FormatError>
    ensures { Reads (times count format.message) bytes.now result }
{
    let mut messages = Messages::new(alloc);
    let mut rest = bytes;
    'each: for _ in 0..count {
        let (message, behind) = message(alloc, rest)?;
        messages.push(message)?;
        rest = behind;
    }
    Ok((messages, rest))
}

/// A packet at the front of the bytes.
#[tactic(auto, using(crate::proofs::Steps::steps), unfolding(crate::specs::Messages::packet))]
pub fn packet(alloc: Global, bytes: &[u8]) -> Result<(Opened, &[u8]), FormatError>
    ensures { Reads format.packet bytes.now result }
{
    let (clock, rest) = word(bytes, 0, MAX_CLOCK)?;
    let (count, rest) = pair(rest, 1, MAX_MESSAGES as u64)?;
    let (messages, rest) = messages(alloc, rest, count)?;
    Ok((Opened { clock, messages }, rest))
}

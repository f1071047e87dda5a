//! Messages, as they are written.
ghost use Rattle.std.specs.Prelude.{◌≡◌, ◌++◌, OnOk};
ghost use Rattle.std.specs.List.{flat_map};
ghost use Rattle.gr_format.specs.Writing.{spelled};
ghost use Rattle.gr_msg.specs.FieldWords as spec;

use crate::message::{Msg, ScopeId, Unit};
use gr_format::{Field, put};
use gr_lang::{Effect, TaskId, Words};
use std::alloc::AllocError;

fn option_fields(found: Option<u64>) -> [Field; 2]
    ensures { result ≡ spec.option_fields found }
{
    match found {
        None => [Field::Byte(0), Field::Word(0)],
        Some(word) => [Field::Byte(1), Field::Word(word)],
    }
}

fn effect_fields(effect: Effect) -> [Field; 3]
    ensures { result ≡ spec.effect_fields effect }
{
    match effect {
        Effect::Keep => [Field::Byte(0), Field::Byte(0), Field::Word(0)],
        Effect::Present { word } => [Field::Byte(1), Field::Byte(0), Field::Word(word)],
        Effect::Absent => [Field::Byte(2), Field::Byte(0), Field::Word(0)],
        Effect::Fold { reducer, word } => [Field::Byte(3), Field::Byte(reducer), Field::Word(word)],
    }
}

/// Words, one after the other.
#[tactic(auto, using(crate::proofs::Spelling::spellings))]
fn put_words(out: &mut Vec<u8>, words: &[u64]) -> Result<(), AllocError>
    ensures { OnOk result (out.new.items ≡ out.old.items ++ spelled (spec.words words.now)) }
{
    for word in words {
        put(out, &[Field::Word(*word)])?;
    }
    Ok(())
}

/// The beginning of a unit.
#[tactic(auto, using(crate::proofs::Spelling::spellings))]
fn put_work(
    out: &mut Vec<u8>,
    tag: u64,
    target: u64,
    args: &Words,
    scope: ScopeId,
    origin: u64,
) -> Result<(), AllocError>
    ensures { OnOk result (out.new.items
        ≡ out.old.items ++ spelled (spec.work_fields tag target args.now scope origin)) }
{
    let count = args.len() as u64;
    put(
        out,
        &[Field::Byte(tag), Field::Byte(target), Field::Byte(count)],
    )?;
    put_words(out, args.as_slice())?;
    put(
        out,
        &[
            Field::Byte(scope.core),
            Field::Word(scope.number),
            Field::Byte(origin),
        ],
    )
}

/// A single task.
fn put_single(
    out: &mut Vec<u8>,
    target: u64,
    args: &Words,
    scope: ScopeId,
    origin: u64,
    id: TaskId,
) -> Result<(), AllocError>
    ensures { OnOk result (out.new.items
        ≡ out.old.items ++ spelled (spec.single_fields target args.now scope origin id)) }
{
    put_work(out, 1, target, args, scope, origin)?;
    put(out, &[Field::Byte(id.core), Field::Word(id.number)])
}

/// What a chunk has behind its work: the owner of the loop, and its indices with the grain.
fn put_loop(
    out: &mut Vec<u8>,
    owner: TaskId,
    lo: u64,
    hi: u64,
    grain: u64,
) -> Result<(), AllocError>
    ensures { OnOk result (out.new.items
        ≡ out.old.items ++ spelled (spec.loop_fields owner lo hi grain)) }
{
    put(
        out,
        &[
            Field::Byte(owner.core),
            Field::Word(owner.number),
            Field::Word(lo),
            Field::Word(hi),
            Field::Word(grain),
        ],
    )
}

/// A chunk, with its indices from lo to below hi and its grain.
fn put_chunk(
    out: &mut Vec<u8>,
    target: u64,
    args: &Words,
    scope: ScopeId,
    origin: u64,
    owner: TaskId,
    range: (u64, u64, u64),
) -> Result<(), AllocError>
    ensures { OnOk result (out.new.items ≡ out.old.items
        ++ spelled (spec.chunk_fields target args.now scope origin owner range.0 range.1 range.2)) }
{
    put_work(out, 2, target, args, scope, origin)?;
    put_loop(out, owner, range.0, range.1, range.2)
}

/// A unit.
fn put_unit(out: &mut Vec<u8>, unit: &Unit) -> Result<(), AllocError>
    ensures { OnOk result (out.new.items ≡ out.old.items ++ spelled (spec.unit_fields unit.now)) }
{
    match unit {
        Unit::Single {
            target,
            args,
            scope,
            origin,
            id,
        } => put_single(out, *target, args, *scope, *origin, *id),
        Unit::Chunk {
            target,
            args,
            scope,
            origin,
            owner,
            lo,
            hi,
            grain,
        } => {
            let range = (*lo, *hi, *grain);
            put_chunk(out, *target, args, *scope, *origin, *owner, range)
        }
    }
}

/// A message of this kind with a unit.
fn put_with_unit(out: &mut Vec<u8>, kind: u64, unit: &Unit) -> Result<(), AllocError>
    ensures { OnOk result (out.new.items ≡ out.old.items ++ spelled (spec.with_unit kind unit.now)) }
{
    put(out, &[Field::Byte(kind)])?;
    put_unit(out, unit)
}

/// A message of this kind with a scope.
fn put_with_scope(out: &mut Vec<u8>, kind: u64, scope: ScopeId) -> Result<(), AllocError>
    ensures { OnOk result (out.new.items ≡ out.old.items ++ spelled (spec.with_scope kind scope)) }
{
    put(
        out,
        &[
            Field::Byte(kind),
            Field::Byte(scope.core),
            Field::Word(scope.number),
        ],
    )
}

/// A message of this kind with a vector and two words.
fn put_pair(
    out: &mut Vec<u8>,
    kind: u64,
    vector: u64,
    first: u64,
    second: u64,
) -> Result<(), AllocError>
    ensures { OnOk result (out.new.items
        ≡ out.old.items ++ spelled (spec.pair_fields kind vector first second)) }
{
    put(
        out,
        &[
            Field::Byte(kind),
            Field::Byte(vector),
            Field::Word(first),
            Field::Word(second),
        ],
    )
}

/// A request, with its three words.
fn put_request(
    out: &mut Vec<u8>,
    slot: u64,
    id: TaskId,
    operation: u64,
    x: u64,
    y: u64,
    z: u64,
) -> Result<(), AllocError>
    ensures { OnOk result (out.new.items
        ≡ out.old.items ++ spelled (spec.request_fields slot id operation x y z)) }
{
    put(
        out,
        &[
            Field::Byte(1),
            Field::Word(slot),
            Field::Byte(id.core),
            Field::Word(id.number),
            Field::Byte(operation),
            Field::Word(x),
            Field::Word(y),
            Field::Word(z),
        ],
    )
}

/// A reply.
fn put_reply(
    out: &mut Vec<u8>,
    slot: u64,
    id: TaskId,
    first: u64,
    second: u64,
) -> Result<(), AllocError>
    ensures { OnOk result (out.new.items
        ≡ out.old.items ++ spelled (spec.reply_fields slot id first second)) }
{
    put(
        out,
        &[
            Field::Byte(2),
            Field::Word(slot),
            Field::Byte(id.core),
            Field::Word(id.number),
            Field::Word(first),
            Field::Word(second),
        ],
    )
}

/// A message of ended tasks.
fn put_complete(out: &mut Vec<u8>, scope: ScopeId, count: u64) -> Result<(), AllocError>
    ensures { OnOk result (out.new.items
        ≡ out.old.items ++ spelled (spec.complete_fields scope count)) }
{
    put(
        out,
        &[
            Field::Byte(6),
            Field::Byte(scope.core),
            Field::Word(scope.number),
            Field::Word(count),
        ],
    )
}

/// A question for the word at a position of a vector.
fn put_position(out: &mut Vec<u8>, vector: u64, position: u64) -> Result<(), AllocError>
    ensures { OnOk result (out.new.items
        ≡ out.old.items ++ spelled (spec.position_fields vector position)) }
{
    put(
        out,
        &[Field::Byte(16), Field::Byte(vector), Field::Word(position)],
    )
}

/// Numbers, and an option behind them.
fn put_found(out: &mut Vec<u8>, fields: &[Field], found: Option<u64>) -> Result<(), AllocError>
    ensures { OnOk result (out.new.items
        ≡ out.old.items ++ spelled (fields.now ++ spec.option_fields found)) }
{
    put(out, fields)?;
    put(out, &option_fields(found))
}

/// The answer of a position of a vector.
fn put_answer(
    out: &mut Vec<u8>,
    vector: u64,
    position: u64,
    got: Option<u64>,
) -> Result<(), AllocError>
    ensures { OnOk result (out.new.items
        ≡ out.old.items ++ spelled (spec.answer_fields vector position got)) }
{
    put_found(
        out,
        &[Field::Byte(17), Field::Byte(vector), Field::Word(position)],
        got,
    )
}

/// A batch.
fn put_batch(
    out: &mut Vec<u8>,
    object: u64,
    key: u64,
    effect: Effect,
    batch: u64,
) -> Result<(), AllocError>
    ensures { OnOk result (out.new.items
        ≡ out.old.items ++ spelled (spec.batch_fields object key effect batch)) }
{
    put(
        out,
        &[Field::Byte(11), Field::Byte(object), Field::Word(key)],
    )?;
    put(out, &effect_fields(effect))?;
    put(out, &[Field::Word(batch)])
}

/// A message.
fn put_message(out: &mut Vec<u8>, message: &Msg) -> Result<(), AllocError>
    ensures { OnOk result (out.new.items ≡ out.old.items ++ spelled (spec.fields message.now)) }
{
    match message {
        Msg::Request {
            slot,
            id,
            operation,
            x,
            y,
            z,
        } => put_request(out, *slot, *id, *operation, *x, *y, *z),
        Msg::Reply {
            slot,
            id,
            first,
            second,
        } => put_reply(out, *slot, *id, *first, *second),
        Msg::Spawn { unit } => put_with_unit(out, 3, unit),
        Msg::Enrol { scope } => put_with_scope(out, 4, *scope),
        Msg::EnrolAck { scope } => put_with_scope(out, 5, *scope),
        Msg::Complete { scope, count } => put_complete(out, *scope, *count),
        Msg::Leave { scope } => put_with_scope(out, 7, *scope),
        Msg::StealAsk => put(out, &[Field::Byte(8)]),
        Msg::StealGive { unit } => put_with_unit(out, 9, unit),
        Msg::Batch {
            object,
            key,
            effect,
            batch,
        } => put_batch(out, *object, *key, *effect, *batch),
        Msg::BatchReply { batch, before } => {
            put_found(out, &[Field::Byte(12), Field::Word(*batch)], *before)
        }
        Msg::Turn { vector } => put(out, &[Field::Byte(13), Field::Byte(*vector)]),
        Msg::Grant { vector, head, tail } => put_pair(out, 14, *vector, *head, *tail),
        Msg::Done { vector, head, tail } => put_pair(out, 18, *vector, *head, *tail),
        Msg::ElemPut {
            vector,
            position,
            word,
        } => put_pair(out, 15, *vector, *position, *word),
        Msg::ElemGet { vector, position } => put_position(out, *vector, *position),
        Msg::ElemAck {
            vector,
            position,
            got,
        } => put_answer(out, *vector, *position, *got),
    }
}

/// Messages, one after the other.
#[tactic(auto, using(crate::proofs::Spelling::spellings))]
pub fn put_messages(out: &mut Vec<u8>, messages: &[Msg]) -> Result<(), AllocError>
    ensures { OnOk result (out.new.items
        ≡ out.old.items ++ spelled (flat_map spec.fields messages.now)) }
{
    for message in messages {
        put_message(out, message)?;
    }
    Ok(())
}

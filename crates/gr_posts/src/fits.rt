//! Whether a message may stand in a packet. A word is one of 64 bits by its type.
ghost use Rattle.std.specs.Prelude.{◌≡◌, ◌<◌, ◌≤◌, MatchBool, true};
ghost use Rattle.gr_msg.specs.Parts.{is_object, words_of};
ghost use Rattle.gr_msg.specs.Ranges.{Fits, IsEffect, IsFound, IsRequest, IsScope, IsTask, IsUnit};
ghost use Rattle.gr_msg.specs.Ranges.{IsVector, IsWord, IsWork};

use gr_lang::{Effect, TaskId};
use gr_msg::{Msg, ScopeId, Unit};
use gr_syntax::{HEAP, MAX_CORES, MAX_OBJECTS, MAX_PARAMS, MAX_TASKS};

/// Each number of 64 bits is a word.
fn is_word(word: u64) -> bool
    ensures { result ≡ true → IsWord word }
{
    word <= u64::MAX
}

/// So is one that may be missing.
fn is_found(found: Option<u64>) -> bool
    ensures { result ≡ true → IsFound found }
{
    match found {
        None => true,
        Some(word) => is_word(word),
    }
}

/// Whether a task may have this name.
fn is_task(id: TaskId) -> bool
    ensures { result ≡ true → IsTask id }
{
    id.core < MAX_CORES
}

/// Whether a scope may have this name.
fn is_scope(scope: ScopeId) -> bool
    ensures { result ≡ true → IsScope scope }
{
    scope.core < MAX_CORES
}

/// Whether a unit may have this work.
fn is_work(target: u64, args: &[u64], scope: ScopeId, origin: u64) -> bool
    ensures { result ≡ true → IsWork target args.now scope origin }
{
    target < MAX_TASKS as u64 && is_scope(scope) && origin < MAX_CORES
}

/// Whether a loop may have these indices and this grain.
fn is_range(lo: u64, hi: u64, grain: u64) -> bool
    ensures { result ≡ true → (lo < hi) × IsWord hi × (1 ≤ grain) × IsWord grain }
{
    lo < hi && 1 <= grain
}

/// Whether a message may carry this unit.
fn is_unit(unit: &Unit) -> bool
    ensures { result ≡ true → IsUnit unit.now }
{
    match unit {
        Unit::Single {
            target,
            args,
            scope,
            origin,
            id,
        } => {
            is_work(*target, args.as_slice(), *scope, *origin)
                && args.len() <= MAX_PARAMS
                && is_task(*id)
        }
        Unit::Chunk {
            target,
            args,
            scope,
            origin,
            owner,
            lo,
            hi,
            grain,
        } => {
            is_work(*target, args.as_slice(), *scope, *origin)
                && args.len() < MAX_PARAMS
                && is_task(*owner)
                && is_range(*lo, *hi, *grain)
        }
    }
}

/// Whether a batch may have this effect.
fn is_effect(effect: Effect) -> bool
    ensures { result ≡ true → IsEffect effect }
{
    match effect {
        Effect::Fold { reducer, word: _ } => reducer < 8,
        _ => true,
    }
}

/// How many words a requested operation has.
fn words_of(operation: u64) -> u64
    ensures { result ≡ words_of operation }
{
    match operation {
        4 => 3,
        2 | 3 => 2,
        _ => 1,
    }
}

/// A word that isn't used is 0.
fn is_used(used: bool, word: u64) -> bool
    ensures { result ≡ true → MatchBool used (IsWord word) (word ≡ 0) }
{
    used || word == 0
}

/// Whether a request may have this operation with these words.
fn is_request(operation: u64, x: u64, y: u64, z: u64) -> bool
    ensures { result ≡ true → IsRequest operation x y z }
{
    1 <= operation
        && operation <= 7
        && is_used(2 <= words_of(operation), y)
        && is_used(3 <= words_of(operation), z)
}

/// Whether an object or the heap has this number.
fn is_object(object: u64) -> bool
    ensures { result ≡ is_object object }
{
    object < MAX_OBJECTS as u64 || object == HEAP
}

/// Whether a vector may have this number.
fn is_vector(vector: u64) -> bool
    ensures { result ≡ true → IsVector vector }
{
    vector < MAX_OBJECTS as u64
}

/// Whether a vector's words may stand from this position to below that.
fn is_line(vector: u64, head: u64, tail: u64) -> bool
    ensures { result ≡ true → IsVector vector × (head ≤ tail) × IsWord tail }
{
    is_vector(vector) && head <= tail
}

/// Whether the message may stand in a packet.
pub fn fits(message: &Msg) -> bool
    ensures { result ≡ true → Fits message.now }
{
    match message {
        Msg::Request {
            slot,
            id,
            operation,
            x,
            y,
            z,
        } => is_word(*slot) && is_task(*id) && is_request(*operation, *x, *y, *z),
        Msg::Reply {
            slot,
            id,
            first,
            second,
        } => is_word(*slot) && is_task(*id) && is_word(*first) && is_word(*second),
        Msg::Spawn { unit } => is_unit(unit),
        Msg::Enrol { scope } => is_scope(*scope),
        Msg::EnrolAck { scope } => is_scope(*scope),
        Msg::Complete { scope, count } => is_scope(*scope) && 1 <= *count,
        Msg::Leave { scope } => is_scope(*scope),
        Msg::StealAsk => true,
        Msg::StealGive { unit } => is_unit(unit),
        Msg::Batch {
            object,
            key,
            effect,
            batch,
        } => is_object(*object) && is_word(*key) && is_effect(*effect) && is_word(*batch),
        Msg::BatchReply { batch, before } => is_word(*batch) && is_found(*before),
        Msg::Turn { vector } => is_vector(*vector),
        Msg::Grant { vector, head, tail } => is_line(*vector, *head, *tail),
        Msg::Done { vector, head, tail } => is_line(*vector, *head, *tail),
        Msg::ElemPut {
            vector,
            position,
            word,
        } => is_vector(*vector) && is_word(*position) && is_word(*word),
        Msg::ElemGet { vector, position } => is_vector(*vector) && is_word(*position),
        Msg::ElemAck {
            vector,
            position,
            got,
        } => is_vector(*vector) && is_word(*position) && is_found(*got),
    }
}

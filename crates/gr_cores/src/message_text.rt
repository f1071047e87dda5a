//! The texts of messages.
use crate::mark_text::found_text;
use gr_lang::{Effect, TaskId};
use gr_msg::{Msg, ScopeId, Unit};
use std::alloc::{AllocError, Global};

fn task_text(alloc: Global, id: TaskId) -> Result<String, AllocError> {
    format!(in alloc; "{}.{}", id.core, id.number)
}

fn scope_text(alloc: Global, scope: ScopeId) -> Result<String, AllocError> {
    format!(in alloc; "{}.{}", scope.core, scope.number)
}

fn words_text(alloc: Global, words: &[u64]) -> Result<String, AllocError> {
    let mut text = String::new(alloc);
    for word in words {
        text.push_str(format!(in alloc; " {word}")?.as_str())?;
    }
    Ok(text)
}

fn unit_text(alloc: Global, unit: &Unit) -> Result<String, AllocError> {
    match unit {
        Unit::Single {
            target,
            args,
            scope,
            origin,
            id,
        } => {
            let args = words_text(alloc, args.as_slice())?;
            let scope = scope_text(alloc, *scope)?;
            let id = task_text(alloc, *id)?;
            format!(in alloc; "single {target}{args} in {scope} origin {origin} as {id}")
        }
        Unit::Chunk {
            target,
            args,
            scope,
            origin,
            owner,
            lo,
            hi,
            grain,
        } => {
            let args = words_text(alloc, args.as_slice())?;
            let scope = scope_text(alloc, *scope)?;
            let owner = task_text(alloc, *owner)?;
            format!(in alloc;
                "chunk {target}{args} in {scope} origin {origin} of {owner} {lo} {hi} grain {grain}"
            )
        }
    }
}

fn effect_text(alloc: Global, effect: Effect) -> Result<String, AllocError> {
    match effect {
        Effect::Keep => String::from_str(alloc, "keep"),
        Effect::Present { word } => format!(in alloc; "present {word}"),
        Effect::Absent => String::from_str(alloc, "absent"),
        Effect::Fold { reducer, word } => format!(in alloc; "fold {reducer} {word}"),
    }
}

/// The text of a request or of the reply to one.
fn call_text(alloc: Global, message: &Msg) -> Result<String, AllocError> {
    match message {
        Msg::Request {
            slot,
            id,
            operation,
            x,
            y,
            z,
        } => {
            let id = task_text(alloc, *id)?;
            format!(in alloc; "request {slot} {id} {operation} {x} {y} {z}")
        }
        Msg::Reply {
            slot,
            id,
            first,
            second,
        } => {
            let id = task_text(alloc, *id)?;
            format!(in alloc; "reply {slot} {id} {first} {second}")
        }
        _ => String::from_str(alloc, "another"),
    }
}

/// The word of a message, and its scope.
fn with_scope(alloc: Global, word: &str, scope: ScopeId) -> Result<String, AllocError> {
    let scope = scope_text(alloc, scope)?;
    format!(in alloc; "{word} {scope}")
}

/// The word of a message, and its unit.
fn with_unit(alloc: Global, word: &str, unit: &Unit) -> Result<String, AllocError> {
    let unit = unit_text(alloc, unit)?;
    format!(in alloc; "{word} {unit}")
}

/// The text of a message of scopes or of units.
fn scope_message(alloc: Global, message: &Msg) -> Result<String, AllocError> {
    match message {
        Msg::Spawn { unit } => with_unit(alloc, "spawn", unit),
        Msg::StealGive { unit } => with_unit(alloc, "give", unit),
        Msg::StealAsk => String::from_str(alloc, "ask"),
        Msg::Enrol { scope } => with_scope(alloc, "enrol", *scope),
        Msg::EnrolAck { scope } => with_scope(alloc, "enrolled", *scope),
        Msg::Leave { scope } => with_scope(alloc, "leave", *scope),
        Msg::Complete { scope, count } => {
            let scope = scope_text(alloc, *scope)?;
            format!(in alloc; "complete {scope} {count}")
        }
        other => call_text(alloc, other),
    }
}

/// The text of a message of turns at a vector.
fn turn_text(alloc: Global, message: &Msg) -> Result<String, AllocError> {
    match message {
        Msg::Turn { vector } => format!(in alloc; "turn {vector}"),
        Msg::Grant { vector, head, tail } => format!(in alloc; "grant {vector} {head} {tail}"),
        Msg::Done { vector, head, tail } => format!(in alloc; "done {vector} {head} {tail}"),
        Msg::ElemPut {
            vector,
            position,
            word,
        } => format!(in alloc; "put {vector} {position} {word}"),
        Msg::ElemGet { vector, position } => format!(in alloc; "get {vector} {position}"),
        Msg::ElemAck {
            vector,
            position,
            got,
        } => {
            let got = found_text(alloc, *got)?;
            format!(in alloc; "got {vector} {position} {got}")
        }
        other => scope_message(alloc, other),
    }
}

/// The text of a message.
pub fn message_text(alloc: Global, message: &Msg) -> Result<String, AllocError> {
    match message {
        Msg::Batch {
            object,
            key,
            effect,
            batch,
        } => {
            let effect = effect_text(alloc, *effect)?;
            format!(in alloc; "batch {object} {key} {effect} as {batch}")
        }
        Msg::BatchReply { batch, before } => {
            let before = found_text(alloc, *before)?;
            format!(in alloc; "batched {batch} before {before}")
        }
        other => turn_text(alloc, other),
    }
}

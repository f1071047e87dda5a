//! The text of an action: its word, the number of the object or task, and the words.
use gr_accept::{Operation, reducer_name};
use gr_lang::{Action, How, Op, Parts};
use std::alloc::{AllocError, Global};

/// The text with words behind it, a space before each.
fn with_words(alloc: Global, text: String, words: &[u64]) -> Result<String, AllocError> {
    let mut text = text;
    for word in words {
        text.push_str(format!(in alloc; " {word}")?.as_str())?;
    }
    Ok(text)
}

/// A call's operation, reducer and object, and its words.
fn call_text(
    alloc: Global,
    operation: Operation,
    object: u64,
    reducer: Option<u64>,
    words: [u64; 3],
) -> Result<String, AllocError> {
    let head = match reducer {
        Some(reducer) => {
            format!(in alloc; "{} {} {object}", operation.name(), reducer_name(reducer))?
        }
        None => format!(in alloc; "{} {object}", operation.name())?,
    };
    let count = operation.argument_count().min(3);
    with_words(alloc, head, &words[..count])
}

fn op_text(alloc: Global, op: Op) -> Result<String, AllocError> {
    match op.parts() {
        Parts::Print { word } => format!(in alloc; "print {word}"),
        Parts::Call {
            operation,
            object,
            reducer,
            words,
        } => call_text(alloc, operation, object, reducer, words),
    }
}

fn how_text(alloc: Global, how: How) -> Result<String, AllocError> {
    match how {
        How::Here => String::from_str(alloc, "spawn"),
        How::At { core } => format!(in alloc; "spawn at {core}"),
        How::Offer => String::from_str(alloc, "offer"),
    }
}

/// What a task does next.
pub fn action_text(alloc: Global, action: &Action) -> Result<String, AllocError> {
    match action {
        Action::Call { op } => op_text(alloc, *op),
        Action::Spawn { how, target, args } => {
            let how = how_text(alloc, *how)?;
            let head = format!(in alloc; "{} {target}", how.as_str())?;
            with_words(alloc, head, args.as_slice())
        }
        Action::Finish => String::from_str(alloc, "finish"),
        Action::Arrive => String::from_str(alloc, "arrive"),
        Action::Loop {
            lo,
            hi,
            grain,
            target,
            args,
        } => {
            let head = format!(in alloc; "forall {lo} {hi} {grain} {target}")?;
            with_words(alloc, head, args.as_slice())
        }
        Action::End => String::from_str(alloc, "end"),
        Action::Trap { kind } => format!(in alloc; "trap {}", kind.word()),
    }
}

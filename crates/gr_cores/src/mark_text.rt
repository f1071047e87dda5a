//! The texts of marks, in the words of the history text.
use gr_accept::Accepted;
use gr_hist::write;
use gr_lang::{Calls, Entry, History, Reply, WaitingCall};
use gr_machine::Mark;
use std::alloc::{AllocError, Global};

/// The lines of a history without the first one.
pub fn entry_lines(
    alloc: Global,
    program: &Accepted,
    history: &History,
) -> Result<Vec<String>, AllocError> {
    let text = write(alloc, program, 1, 1, history)?;
    let text = String::from_utf8_lossy(alloc, text.as_slice())?;
    let mut lines = Vec::new(alloc);
    for line in text.as_str().lines().skip(1) {
        lines.push(String::from_str(alloc, line)?)?;
    }
    Ok(lines)
}

/// The line of an entry.
fn entry_text(alloc: Global, program: &Accepted, entry: Entry) -> Result<String, AllocError> {
    let mut history = History::new(alloc);
    history.push(entry)?;
    let mut lines = entry_lines(alloc, program, &history)?;
    match lines.pop() {
        Some(line) => Ok(line),
        None => Ok(String::new(alloc)),
    }
}

/// What stands before the first such mark, or all where there is none.
pub fn front<'a>(text: &'a str, mark: &str) -> &'a str {
    let parts = text.split_once(mark);
    match parts {
        Some((front, _)) => front,
        None => text,
    }
}

/// A call without its reply, with its slot.
fn call_text(alloc: Global, program: &Accepted, call: &WaitingCall) -> Result<String, AllocError> {
    let entry = Entry::Call {
        task: call.id,
        op: call.op,
        reply: Reply {
            first: 0,
            second: 0,
        },
    };
    let line = entry_text(alloc, program, entry)?;
    let text = front(line.as_str(), " =");
    let slot = call.slot;
    format!(in alloc; "slot {slot} {text}")
}

fn calls_text(alloc: Global, program: &Accepted, calls: &Calls) -> Result<String, AllocError> {
    let mut text = String::new(alloc);
    for call in calls.as_slice() {
        if text.len() > 0 {
            text.push_str(", ")?;
        }
        text.push_str(call_text(alloc, program, call)?.as_str())?;
    }
    Ok(text)
}

/// A word, or none.
pub fn found_text(alloc: Global, found: Option<u64>) -> Result<String, AllocError> {
    match found {
        Some(word) => format!(in alloc; "{word}"),
        None => String::from_str(alloc, "none"),
    }
}

/// The text of a mark.
pub fn mark_text(alloc: Global, program: &Accepted, mark: &Mark) -> Result<String, AllocError> {
    match mark {
        Mark::Entry { entry } => entry_text(alloc, program, entry.copy()?),
        Mark::Closed { batch, calls } => {
            let calls = calls_text(alloc, program, calls)?;
            format!(in alloc; "closed {batch} calls {calls}")
        }
        Mark::Applied {
            origin,
            batch,
            before,
        } => {
            let before = found_text(alloc, *before)?;
            format!(in alloc; "applied {origin} {batch} before {before}")
        }
    }
}

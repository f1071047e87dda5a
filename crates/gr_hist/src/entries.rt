//! The entry of a line by its fields.
ghost use Rattle.std.specs.Prelude.{map};
ghost use Rattle.gr_hist.specs.FieldWords.{Gives, bytes_of, act_of, begin_of, by_operation};
ghost use Rattle.gr_hist.specs.FieldWords.{end_of, entry_of, finish_of, mark_of, other_of};
ghost use Rattle.gr_hist.specs.FieldWords.{over_of, print_of, trap_entry};

use crate::calls::call;
use crate::fields::{LineError, child, id, is_text, number};
use crate::starts::{forall, offer, spawn};
use crate::text::NamedEntry;
use crate::words::trap_named;
use gr_accept::{Operation, operation_of};
use gr_lang::TaskId;
use std::alloc::Global;

/// The whole line `over`.
fn over(word: &[u8]) -> Result<NamedEntry, LineError>
    ensures { Gives (over_of word.now) result }
{
    if is_text(word, "over") {
        Ok(NamedEntry::Over)
    } else {
        Err(LineError::Bad)
    }
}

/// What stands behind `print`.
fn print(task: TaskId, fields: &[&[u8]]) -> Result<NamedEntry, LineError>
    ensures { Gives (print_of task (bytes_of fields.now)) result }
{
    match fields {
        [word] => {
            let word = number(*word)?;
            Ok(NamedEntry::Print { task, word })
        }
        [] | [_, _, ..] => Err(LineError::Bad),
    }
}

/// What stands behind `finish`.
fn finish(task: TaskId, fields: &[&[u8]]) -> Result<NamedEntry, LineError>
    ensures { Gives (finish_of task (bytes_of fields.now)) result }
{
    match fields {
        [] => Ok(NamedEntry::Finish { task }),
        [_, ..] => Err(LineError::Bad),
    }
}

/// An entry of one word.
fn end(task: TaskId, word: &[u8]) -> Result<NamedEntry, LineError>
    ensures { Gives (end_of task word.now) result }
{
    if is_text(word, "pass") {
        Ok(NamedEntry::Pass { task })
    } else if is_text(word, "end") {
        Ok(NamedEntry::End { task })
    } else {
        Err(LineError::Bad)
    }
}

/// What stands behind `trap`.
fn trap(task: TaskId, word: &[u8], fields: &[&[u8]]) -> Result<NamedEntry, LineError>
    ensures { Gives (trap_entry task word.now (bytes_of fields.now)) result }
{
    match fields {
        [] => {
            let kind = trap_named(word)?;
            Ok(NamedEntry::Trap { task, kind })
        }
        [_, ..] => Err(LineError::Bad),
    }
}

/// What stands behind `begin`.
fn begin(owner: TaskId, index: &[u8], fields: &[&[u8]]) -> Result<NamedEntry, LineError>
    ensures { Gives (begin_of owner index.now (bytes_of fields.now)) result }
{
    let index = number(index)?;
    let child = child(fields)?;
    Ok(NamedEntry::Begin {
        owner,
        index,
        child,
    })
}

/// An entry of some words that is no call.
#[tactic(auto, unfolding(crate::specs::FieldWords::mark_of))]
fn mark(task: TaskId, word: &[u8], first: &[u8], fields: &[&[u8]]) -> Result<NamedEntry, LineError>
    ensures { Gives (mark_of task word.now first.now (bytes_of fields.now)) result }
{
    let entry = if is_text(word, "trap") {
        trap(task, first, fields)?
    } else if is_text(word, "begin") {
        begin(task, first, fields)?
    } else {
        return Err(LineError::Bad);
    };
    Ok(entry)
}

/// A call where an operation's word follows.
fn by_operation(
    alloc: Global,
    found: Option<Operation>,
    task: TaskId,
    word: &[u8],
    first: &[u8],
    fields: &[&[u8]],
) -> Result<NamedEntry, LineError>
    ensures { Gives (by_operation found task word.now first.now (bytes_of fields.now)) result }
{
    match found {
        Some(op) => call(alloc, task, word, op, fields),
        None => mark(task, word, first, fields),
    }
}

/// An entry whose first word is no keyword.
#[tactic(auto, unfolding(crate::specs::FieldWords::other_of))]
fn other(
    alloc: Global,
    task: TaskId,
    word: &[u8],
    fields: &[&[u8]],
) -> Result<NamedEntry, LineError>
    ensures { Gives (other_of task word.now (bytes_of fields.now)) result }
{
    match fields {
        [] => end(task, word),
        [first, rest @ ..] => {
            let found = operation_of(*first);
            let entry = by_operation(alloc, found, task, word, *first, rest)?;
            Ok(entry)
        }
    }
}

/// An entry by its first word.
fn act(alloc: Global, task: TaskId, word: &[u8], fields: &[&[u8]]) -> Result<NamedEntry, LineError>
    ensures { Gives (act_of task word.now (bytes_of fields.now)) result }
{
    if is_text(word, "print") {
        return print(task, fields);
    }
    if is_text(word, "finish") {
        return finish(task, fields);
    }
    if is_text(word, "spawn") {
        return spawn(alloc, task, fields);
    }
    if is_text(word, "offer") {
        return offer(alloc, task, fields);
    }
    if is_text(word, "forall") {
        return forall(alloc, task, fields);
    }
    other(alloc, task, word, fields)
}

/// The entry of these fields.
pub fn entry(alloc: Global, fields: &[&[u8]]) -> Result<NamedEntry, LineError>
    ensures { Gives (entry_of (bytes_of fields.now)) result }
{
    match fields {
        [] => Err(LineError::Bad),
        [word] => over(*word),
        [first, word, rest @ ..] => {
            let task = id(*first)?;
            let entry = act(alloc, task, *word, rest)?;
            Ok(entry)
        }
    }
}

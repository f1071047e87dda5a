//! The lines of calls, from behind the operation's word.
ghost use Rattle.std.specs.Prelude.{None, Some, map};
ghost use Rattle.gr_hist.specs.FieldWords.{Gives, bytes_of, call_of, call_with, reducing_of};
ghost use Rattle.gr_hist.specs.FieldWords.{reply_of, tail_of};

use crate::fields::{LineError, counted, is_text};
use crate::names::object_name;
use crate::text::NamedEntry;
use crate::words::reducer_named;
use gr_accept::Operation;
use gr_lang::{TaskId, Words};
use gr_syntax::Text;
use std::alloc::Global;

/// So many result words, behind `=` if there are any.
fn reply(alloc: Global, count: usize, fields: &[&[u8]]) -> Result<Words, LineError>
    ensures { Gives (reply_of count (bytes_of fields.now)) result }
{
    match fields {
        [] => {
            if count != 0 {
                return Err(LineError::Bad);
            }
            Ok(Words::new(alloc))
        }
        [sign, rest @ ..] => {
            if count == 0 {
                return Err(LineError::Bad);
            }
            let has_sign = is_text(*sign, "=");
            if !has_sign {
                return Err(LineError::Bad);
            }
            let words = counted(alloc, count, rest)?;
            Ok(words)
        }
    }
}

/// The numbers of an operation, and its result words.
fn tail(alloc: Global, op: Operation, fields: &[&[u8]]) -> Result<(Words, Words), LineError>
    ensures { Gives (tail_of op (bytes_of fields.now)) result }
{
    let count = op.argument_count();
    if fields.len() < count {
        return Err(LineError::Bad);
    }
    let numbers = counted(alloc, count, &fields[..count])?;
    let words = reply(alloc, op.result_count(), &fields[count..])?;
    Ok((numbers, words))
}

/// A call whose reducer is known, if there is one.
fn call_with(
    alloc: Global,
    task: TaskId,
    object: Text,
    op: Operation,
    reducer: Option<u64>,
    fields: &[&[u8]],
) -> Result<NamedEntry, LineError>
    ensures { Gives (call_with task object op reducer (bytes_of fields.now)) result }
{
    let (numbers, reply) = tail(alloc, op, fields)?;
    Ok(NamedEntry::Call {
        task,
        object,
        op,
        reducer,
        numbers,
        reply,
    })
}

/// A call whose reducer stands first.
fn reducing(
    alloc: Global,
    task: TaskId,
    object: Text,
    op: Operation,
    fields: &[&[u8]],
) -> Result<NamedEntry, LineError>
    ensures { Gives (reducing_of task object op (bytes_of fields.now)) result }
{
    match fields {
        [] => Err(LineError::Bad),
        [word, rest @ ..] => {
            let reducer = reducer_named(*word)?;
            let entry = call_with(alloc, task, object, op, Some(reducer), rest)?;
            Ok(entry)
        }
    }
}

/// A call of the object of that name.
#[tactic(auto, unfolding(crate::specs::FieldWords::call_of))]
pub fn call(
    alloc: Global,
    task: TaskId,
    name: &[u8],
    op: Operation,
    fields: &[&[u8]],
) -> Result<NamedEntry, LineError>
    ensures { Gives (call_of task name.now op (bytes_of fields.now)) result }
{
    let object = object_name(alloc, name)?;
    let entry = if op.takes_reducer() {
        reducing(alloc, task, object, op, fields)?
    } else {
        call_with(alloc, task, object, op, None, fields)?
    };
    Ok(entry)
}

//! The lines of tasks and loops that start, from behind their first word.
ghost use Rattle.std.specs.Prelude.{◌≤◌, length, map};
ghost use Rattle.gr_hist.specs.FieldWords.{Gives, bytes_of, args_of, args_with, loop_of};
ghost use Rattle.gr_hist.specs.FieldWords.{loop_over, loop_with, offer_of, spawn_of, start_at};
ghost use Rattle.gr_hist.specs.FieldWords.{start_of};

use crate::fields::{LineError, child, is_text, number, numbers};
use crate::names::name;
use crate::text::NamedEntry;
use gr_lang::{How, TaskId, Words};
use std::alloc::Global;

/// The arguments, and the new task.
#[tactic(auto, unfolding(crate::specs::FieldWords::args_with))]
fn args_with(alloc: Global, fields: &[&[u8]], last: &[&[u8]]) -> Result<(Words, TaskId), LineError>
    ensures { Gives (args_with (bytes_of fields.now) (bytes_of last.now)) result }
{
    let args = numbers(alloc, fields)?;
    let child = child(last)?;
    Ok((args, child))
}

/// The arguments, and the new task, which the last two fields name.
#[tactic(auto, unfolding(crate::specs::FieldWords::args_of), using(crate::proofs::Arguments::args_are))]
fn args_and_child(alloc: Global, fields: &[&[u8]]) -> Result<(Words, TaskId), LineError>
    ensures { Gives (args_of (bytes_of fields.now)) result }
{
    if fields.len() < 2 {
        return Err(LineError::Bad);
    }
    let (args, last) = fields.split_at(fields.len() - 2);
    let found = args_with(alloc, args, last)?;
    Ok(found)
}

/// A start whose way is known: the target, its arguments and the new task.
#[tactic(auto, unfolding(crate::specs::FieldWords::start_of))]
fn start(
    alloc: Global,
    task: TaskId,
    how: How,
    target: &[u8],
    fields: &[&[u8]],
) -> Result<NamedEntry, LineError>
    ensures { Gives (start_of task how target.now (bytes_of fields.now)) result }
{
    let target = name(alloc, target)?;
    let (args, child) = args_and_child(alloc, fields)?;
    Ok(NamedEntry::Spawn {
        task,
        how,
        target,
        args,
        child,
    })
}

/// A start at a core.
fn start_at(alloc: Global, task: TaskId, fields: &[&[u8]]) -> Result<NamedEntry, LineError>
    ensures { Gives (start_at task (bytes_of fields.now)) result }
{
    match fields {
        [core, target, rest @ ..] => {
            let core = number(*core)?;
            let entry = start(alloc, task, How::At { core }, *target, rest)?;
            Ok(entry)
        }
        [] | [_] => Err(LineError::Bad),
    }
}

/// What stands behind `spawn`.
#[tactic(auto, unfolding(crate::specs::FieldWords::spawn_of))]
pub fn spawn(alloc: Global, task: TaskId, fields: &[&[u8]]) -> Result<NamedEntry, LineError>
    ensures { Gives (spawn_of task (bytes_of fields.now)) result }
{
    match fields {
        [] => Err(LineError::Bad),
        [first, rest @ ..] => {
            let entry = if is_text(*first, "at") {
                start_at(alloc, task, rest)?
            } else {
                start(alloc, task, How::Here, *first, rest)?
            };
            Ok(entry)
        }
    }
}

/// What stands behind `offer`.
#[tactic(auto, unfolding(crate::specs::FieldWords::offer_of))]
pub fn offer(alloc: Global, task: TaskId, fields: &[&[u8]]) -> Result<NamedEntry, LineError>
    ensures { Gives (offer_of task (bytes_of fields.now)) result }
{
    match fields {
        [] => Err(LineError::Bad),
        [target, rest @ ..] => {
            let entry = start(alloc, task, How::Offer, *target, rest)?;
            Ok(entry)
        }
    }
}

/// A loop whose range is known: its grain, its target and the arguments.
#[tactic(auto, unfolding(crate::specs::FieldWords::loop_with))]
fn loop_with(
    alloc: Global,
    task: TaskId,
    lo: u64,
    hi: u64,
    grain: &[u8],
    target: &[u8],
    fields: &[&[u8]],
) -> Result<NamedEntry, LineError>
    ensures { Gives (loop_with task lo hi grain.now target.now (bytes_of fields.now)) result }
{
    let grain = number(grain)?;
    let target = name(alloc, target)?;
    let args = numbers(alloc, fields)?;
    Ok(NamedEntry::Loop {
        task,
        lo,
        hi,
        grain,
        target,
        args,
    })
}

/// A loop whose range is still to be read.
#[tactic(auto, unfolding(crate::specs::FieldWords::loop_over))]
fn loop_over(
    alloc: Global,
    task: TaskId,
    lo: &[u8],
    hi: &[u8],
    fields: &[&[u8]],
) -> Result<NamedEntry, LineError>
    ensures { Gives (loop_over task lo.now hi.now (bytes_of fields.now)) result }
{
    match fields {
        [grain, target, rest @ ..] => {
            let lo = number(lo)?;
            let hi = number(hi)?;
            let entry = loop_with(alloc, task, lo, hi, *grain, *target, rest)?;
            Ok(entry)
        }
        [] | [_] => Err(LineError::Bad),
    }
}

/// What stands behind `forall`.
#[tactic(auto, unfolding(crate::specs::FieldWords::loop_of))]
pub fn forall(alloc: Global, task: TaskId, fields: &[&[u8]]) -> Result<NamedEntry, LineError>
    ensures { Gives (loop_of task (bytes_of fields.now)) result }
{
    match fields {
        [lo, hi, sign, rest @ ..] => {
            let has_grain = is_text(*sign, "grain");
            if !has_grain {
                return Err(LineError::Bad);
            }
            let entry = loop_over(alloc, task, *lo, *hi, rest)?;
            Ok(entry)
        }
        [] | [_] | [_, _] => Err(LineError::Bad),
    }
}

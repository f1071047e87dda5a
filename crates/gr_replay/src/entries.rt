//! The entry that a line of a history text names in a program.
ghost use Rattle.std.specs.Prelude.{◌≡◌, IfOk};
ghost use Rattle.std.specs.Option.{option_and_then, option_map};
ghost use Rattle.gr_syntax.specs.Items.{object_named, task_named};
ghost use Rattle.gr_replay.specs.Entries as spec;

use gr_accept::Operation;
use gr_hist::NamedEntry;
use gr_lang::{Entry, How, Op, Reply, TaskId, Words, op_of};
use gr_names::ProgramNames;
use gr_syntax::{HEAP, Text};
use std::alloc::AllocError;

/// Whether so many numbers, reply words and reducers are what the operation takes and gives.
fn has_counts(operation: Operation, reducer: Option<u64>, numbers: &[u64], words: &[u64]) -> bool
    ensures { result ≡ spec.has_counts operation reducer numbers.now words.now }
{
    numbers.len() == operation.argument_count()
        && words.len() == operation.result_count()
        && reducer.is_some() == operation.takes_reducer()
}

/// A word that isn't there is 0.
fn reply_of(words: &[u64]) -> Reply
    ensures { result ≡ spec.reply_of words.now }
{
    match words {
        [] => Reply::nothing(),
        [first] => Reply::one(*first),
        [first, second, ..] => Reply {
            first: *first,
            second: *second,
        },
    }
}

/// Whether the operation can be one of that object: only the heap allocates and frees.
fn is_at(operation: Operation, object: u64) -> bool
    ensures { result ≡ spec.is_at operation object }
{
    match operation {
        Operation::Alloc | Operation::Free => object == HEAP,
        _ => true,
    }
}

/// The call of that object, if the operation takes and gives so many words there.
fn call_at(
    task: TaskId,
    operation: Operation,
    reducer: Option<u64>,
    numbers: &[u64],
    words: &[u64],
    object: u64,
) -> Option<Entry>
    ensures { result ≡ spec.call_at task operation reducer numbers.now words.now object }
{
    let fits = has_counts(operation, reducer, numbers, words) && is_at(operation, object);
    if fits {
        Some(Entry::Call {
            task,
            op: op_of(operation, object, reducer.unwrap_or(0), numbers),
            reply: reply_of(words),
        })
    } else {
        None
    }
}

fn call_in(
    names: &ProgramNames,
    task: TaskId,
    object: &Text,
    operation: Operation,
    reducer: Option<u64>,
    numbers: &[u64],
    words: &[u64],
) -> Option<Entry>
    ensures { result ≡ option_and_then (spec.call_at task operation reducer numbers.now words.now)
        (object_named names.now object.now) }
{
    let object = names.object(object)?;
    call_at(task, operation, reducer, numbers, words, object)
}

fn spawn_in(
    names: &ProgramNames,
    task: TaskId,
    how: How,
    target: &Text,
    args: &Words,
    child: TaskId,
) -> Result<Option<Entry>, AllocError>
    ensures { IfOk result (λ found. found ≡ option_map
        (λ number. Entry.Spawn task how number args.now child) (task_named names.now target.now)) }
{
    match names.task(target) {
        None => Ok(None),
        Some(target) => {
            let args = args.copy()?;
            Ok(Some(Entry::Spawn {
                task,
                how,
                target,
                args,
                child,
            }))
        }
    }
}

fn loop_in(
    names: &ProgramNames,
    task: TaskId,
    lo: u64,
    hi: u64,
    grain: u64,
    target: &Text,
    args: &Words,
) -> Result<Option<Entry>, AllocError>
    ensures { IfOk result (λ found. found ≡ option_map
        (λ number. Entry.Loop task lo hi grain number args.now) (task_named names.now target.now)) }
{
    match names.task(target) {
        None => Ok(None),
        Some(target) => {
            let args = args.copy()?;
            Ok(Some(Entry::Loop {
                task,
                lo,
                hi,
                grain,
                target,
                args,
            }))
        }
    }
}

/// The entry of a line that names no object and no task; None for any other line.
fn nameless(line: &NamedEntry) -> Option<Entry>
    ensures { result ≡ spec.nameless line.now }
{
    match line {
        NamedEntry::Print { task, word } => Some(Entry::Call {
            task: *task,
            op: Op::Print { word: *word },
            reply: Reply::nothing(),
        }),
        NamedEntry::Finish { task } => Some(Entry::Finish { task: *task }),
        NamedEntry::Begin {
            owner,
            index,
            child,
        } => Some(Entry::Begin {
            owner: *owner,
            index: *index,
            child: *child,
        }),
        NamedEntry::Pass { task } => Some(Entry::Pass { task: *task }),
        NamedEntry::End { task } => Some(Entry::End { task: *task }),
        NamedEntry::Trap { task, kind } => Some(Entry::Trap {
            task: *task,
            kind: *kind,
        }),
        NamedEntry::Over => Some(Entry::Over),
        NamedEntry::Call { .. } | NamedEntry::Spawn { .. } | NamedEntry::Loop { .. } => None,
    }
}

/// The entry that the line names in the program; None where the program doesn't have a name of the
/// line, or its operation takes or gives other words. An error is want of memory.
#[tactic(auto, unfolding(crate::specs::Entries::entry_in))]
pub fn entry_in(names: &ProgramNames, line: &NamedEntry) -> Result<Option<Entry>, AllocError>
    ensures { IfOk result (λ found. found ≡ spec.entry_in names.now line.now) }
{
    match line {
        NamedEntry::Call {
            task,
            object,
            op,
            reducer,
            numbers,
            reply,
        } => {
            let (numbers, reply) = (numbers.as_slice(), reply.as_slice());
            Ok(call_in(names, *task, object, *op, *reducer, numbers, reply))
        }
        NamedEntry::Spawn {
            task,
            how,
            target,
            args,
            child,
        } => spawn_in(names, *task, *how, target, args, *child),
        NamedEntry::Loop {
            task,
            lo,
            hi,
            grain,
            target,
            args,
        } => loop_in(names, *task, *lo, *hi, *grain, target, args),
        _ => Ok(nameless(line)),
    }
}

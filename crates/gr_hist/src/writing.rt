//! The writer of history texts.
ghost use Rattle.std.specs.Prelude.{◌≡◌, ◌++◌, IfOk, OnOk, map, true};
ghost use Rattle.gr_lang.specs.Histories.{legal};
ghost use Rattle.gr_hist.specs.Grammar.{HasNumbers};
ghost use Rattle.gr_hist.specs.Naming.{IsNamable, IsNamed, ReadsBack, history_text};
ghost use Rattle.gr_hist.specs.Naming.{lines_of, named, named_parts};
ghost use Rattle.gr_hist.specs.Spelling.{entry_line, header_line};
ghost use Rattle.gr_hist.specs.WritingWords.{HaveNumbers};

use crate::entry_lines::{put_begin, put_call, put_loop, put_mark, put_print, put_start, put_trap};
use crate::putting::{put_number, put_text};
use gr_accept::Accepted;
use gr_lang::{Entry, History, Parts, Reply, TaskId};
use gr_names::ProgramNames;
use std::alloc::{AllocError, Global};

/// Adds the line of a call that is taken apart, or of a print.
#[tactic(auto, using(crate::proofs::Counts::counts))]
fn put_parts(
    out: &mut Vec<u8>,
    names: &ProgramNames,
    task: TaskId,
    parts: Parts,
    reply: Reply,
) -> Result<(), AllocError>
    ensures text { OnOk result (out.new.items ≡ out.old.items
        ++ entry_line (named_parts names.now task parts reply)) }
    ensures fits { OnOk result (HasNumbers (named_parts names.now task parts reply)) }
{
    match parts {
        Parts::Call {
            operation,
            object,
            reducer,
            words,
        } => {
            let replied = [reply.first, reply.second];
            let name = names.object_name(object);
            let numbers = &words[..operation.argument_count()];
            let results = &replied[..operation.result_count()];
            put_call(out, task, name, operation, reducer, numbers, results)
        }
        Parts::Print { word } => put_print(out, task, word),
    }
}

/// Adds the line of an entry.
fn put_entry(out: &mut Vec<u8>, names: &ProgramNames, entry: &Entry) -> Result<(), AllocError>
    ensures text { OnOk result (out.new.items ≡ out.old.items
        ++ entry_line (named names.now entry.now)) }
    ensures fits { OnOk result (HasNumbers (named names.now entry.now)) }
{
    match entry {
        Entry::Call { task, op, reply } => put_parts(out, names, *task, op.parts(), *reply),
        Entry::Spawn {
            task,
            how,
            target,
            args,
            child,
        } => {
            let name = names.task_name(*target);
            put_start(out, *task, *how, name, args.as_slice(), *child)
        }
        Entry::Finish { task } => put_mark(out, *task, "finish"),
        Entry::Loop {
            task,
            lo,
            hi,
            grain,
            target,
            args,
        } => {
            let name = names.task_name(*target);
            put_loop(out, *task, *lo, *hi, *grain, name, args.as_slice())
        }
        Entry::Begin {
            owner,
            index,
            child,
        } => put_begin(out, *owner, *index, *child),
        Entry::Pass { task } => put_mark(out, *task, "pass"),
        Entry::End { task } => put_mark(out, *task, "end"),
        Entry::Trap { task, kind } => put_trap(out, *task, *kind),
        Entry::Over => put_text(out, "over\n"),
    }
}

/// Adds the lines of entries.
fn put_entries(out: &mut Vec<u8>, names: &ProgramNames, entries: &[Entry]) -> Result<(), AllocError>
    ensures text { OnOk result (out.new.items ≡ out.old.items
        ++ lines_of (map (named names.now) entries.now)) }
    ensures fits { OnOk result (HaveNumbers names.now entries.now) }
{
    for entry in entries {
        put_entry(out, names, entry)?;
    }
    Ok(())
}

/// Adds the first line.
fn put_header(out: &mut Vec<u8>, cores: u64, steps: u64) -> Result<(), AllocError>
    ensures { OnOk result (out.new.items ≡ out.old.items ++ header_line cores steps) }
{
    put_text(out, "history 1 cores ")?;
    put_number(out, cores)?;
    put_text(out, " steps ")?;
    put_number(out, steps)?;
    put_text(out, "\n")
}

/// The text of a history of the program, with the number of cores, 1 to 16, and the limit of steps,
/// 1 to 2^40. Where each object and task of the history has a name that is one of the language, it
/// reads as that history with its names; so it does where the history is legal and the program
/// gives such names. An error is want of memory.
pub fn write(
    alloc: Global,
    program: &Accepted,
    cores: u64,
    steps: u64,
    history: &History,
) -> Result<Vec<u8>, AllocError>
    ensures text { IfOk result
        (λ text. text.items ≡ history_text program.now cores steps history.now) }
    ensures reads { IsNamable program.now history.now
        → IfOk result (λ text. ReadsBack program.now cores steps history.now text.items) }
    ensures reads_legal { IsNamed program.now → legal program.now cores steps history.now ≡ true
        → IfOk result (λ text. ReadsBack program.now cores steps history.now text.items) }
{
    let names = ProgramNames::new(alloc, program.program())?;
    let mut out = Vec::new(alloc);
    put_header(&mut out, cores, steps)?;
    put_entries(&mut out, &names, history.as_slice())?;
    Ok(out)
}

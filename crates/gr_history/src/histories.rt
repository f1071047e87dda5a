//! The history of a run.
ghost use Rattle.std.specs.Prelude.{◌≡◌, ◌++◌, IfOk, OnOk, map, true};
ghost use Rattle.gr_machine.specs.declared.setup.Setup.{Setup};
ghost use Rattle.gr_machine.specs.Histories.{batch_entries, entries_of, history_of, sent_after};
ghost use Rattle.gr_machine.specs.Machines.{Machine, machine_of};
ghost use Rattle.gr_merge.specs.Merges.{merge as merged};
ghost use Rattle.gr_history.specs.HistoryWords.{sent_in};
ghost use Rattle.gr_lang.specs.Histories.{legal};
ghost use Rattle.gr_posts.specs.Posts.{IsSetup};
ghost use Rattle.gr_runnable.specs.Runnable.{IsRunnable};
ghost use Rattle.gr_syntax.specs.declared.syntax.Program.{Program};
ghost use Rattle.gr_world.specs.Worlds.{AreEnds, IsHistoryOf};

use crate::batches::{BatchId, Batches, add, find, no_batches};
use crate::marks::{LentMark, lists_of};
use gr_lang::{Calls, Entry, History};
use gr_machine::{CoreEnds, Mark, StampedMark};
use gr_merge::merge;
use gr_reduce::Reducers;
use gr_stands_legal::runs_are_legal;
use gr_world::ends_are_runs;
use std::alloc::{AllocError, Global};

/// Tells the calls of a batch one after another, each with its reply, where this stood there before them.
fn tell_calls(
    history: &mut History,
    calls: &Calls,
    before: Option<u64>,
    reducers: &Reducers,
) -> Result<(), AllocError>
    ensures { OnOk result (history.new ≡ history.old ++ batch_entries calls.now before) }
{
    let mut value = before;
    let calls = calls.as_slice();
    for call in calls {
        history.push(Entry::Call {
            task: call.id,
            op: call.op,
            reply: call.op.key_reply(value),
        })?;
        value = reducers.after(call.op.effect(), value);
    }
    Ok(())
}

/// Tells what a mark of a core stands for.
fn tell<'a>(
    history: &mut History,
    batches: &mut Batches<'a>,
    core: u64,
    mark: &'a StampedMark,
    reducers: &Reducers,
) -> Result<(), AllocError>
    ensures entries { OnOk result (history.new
        ≡ history.old ++ entries_of (sent_in batches.old.entries) mark.now.mark) }
    ensures sent { OnOk result (sent_in batches.new.entries
        ≡ sent_after (sent_in batches.old.entries) core mark.now.mark) }
{
    match &mark.mark {
        Mark::Entry { entry } => history.push(entry.copy()?),
        Mark::Closed { batch, calls } => add(
            batches,
            BatchId {
                core,
                number: *batch,
            },
            calls,
        ),
        Mark::Applied {
            origin,
            batch,
            before,
        } => {
            let id = BatchId {
                core: *origin,
                number: *batch,
            };
            match find(batches, id) {
                Some(calls) => tell_calls(history, calls, *before, reducers),
                None => Ok(()),
            }
        }
    }
}

/// The history that marks with their cores tell.
fn told<'a>(
    alloc: Global,
    marks: Vec<(u64, LentMark<'a>)>,
    reducers: &Reducers,
) -> Result<History, AllocError>
    ensures { IfOk result (λ history. history ≡ history_of marks.entry.items) }
{
    let mut batches = no_batches(alloc);
    let mut history = History::new(alloc);
    for (core, lent) in marks {
        tell(&mut history, &mut batches, core, lent.mark(), reducers)?;
    }
    Ok(history)
}

/// The history of a run with these ends. The marks of all cores are told by clock, and of equal clocks those of the
/// lower core first. Where the ends are those of a run of a program, each entry of it is a step of the plain memory,
/// whatever the schedule was.
pub fn history(alloc: Global, ends: &CoreEnds, reducers: &Reducers) -> Result<History, AllocError>
    ensures marks { IfOk result (λ history. history
        ≡ history_of (merged (λ mark. mark.clock) (map (λ end. end.marks) ends.now))) }
    ensures run { (machine : Machine) → AreEnds machine ends.now
        → IfOk result (λ history. IsHistoryOf machine ends.now history) }
    ensures legal { (setup : Setup) (program : Program) → IsSetup setup → IsRunnable program
        → AreEnds (machine_of setup program) ends.now
        → IfOk result (λ history. legal program setup.cores setup.steps history ≡ true) }
{
    let lists = lists_of(alloc, ends)?;
    let marks = merge(alloc, lists)?;
    let history = told(alloc, marks, reducers)?;
    ends_are_runs();
    runs_are_legal();
    Ok(history)
}

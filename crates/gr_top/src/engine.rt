//! From options and a text to an answer that is whole before a byte is written.
ghost use Rattle.std.specs.Prelude.{◌≡◌, ◌++◌, true, IfOk, IfSome, OnOk, None, Some, string_bytes};
ghost use Rattle.gr_syntax.specs.declared.syntax.Program.{Program};
ghost use Rattle.gr_lang.specs.Histories.{legal};
ghost use Rattle.gr_cli.specs.Options.{IsWithinLimits};
ghost use Rattle.gr_engine.specs.Ends.{IsEnding, ended_as};
ghost use Rattle.gr_hist.specs.Naming.{IsNamed, ReadsBack, history_text};
ghost use Rattle.gr_runnable.specs.Runnable.{IsRunnable};
ghost use Rattle.gr_top.specs.Readings.{ReadsAs};
ghost use Rattle.gr_top.specs.Due.{Reading, accepted as accepted_as, counted as counted_of, due_accepted, due_read, due_refused, due_run, told as told_of, IsWritten};
ghost use Rattle.gr_top.specs.Commands.{setup_of};
ghost use Rattle.gr_top.specs.Promises.{IsRunOf};
ghost use Rattle.gr_top.specs.AnswerView.{lines_at, made, refusal_at, text_at};

use crate::answer::{Answer, Refusal};
use crate::command::setup;
use crate::reading::{TextRead, read_text};
use crate::texts::{STALLED, refused_text};
use gr_accept::Accepted;
use gr_cli::{Command, Options};
use gr_engine::{Ending, Ran, run_program};
use gr_hist::write;
use gr_lang::History;
use gr_machine::CoreEnds;
use gr_reduce::Reducers;
use gr_report::{counts_text, prints, show_text, write_limit, write_trap};
use gr_round::Gate;
use gr_runnable::texts_are_runnable;
use gr_syntax::Fault;
use std::alloc::{AllocError, Global};
use std::thread::Threads;

/// An answer that tells no more than this text.
pub(crate) fn said(alloc: Global, refusal: Refusal, text: &str) -> Result<Answer, AllocError>
    ensures { IfOk result (λ a. (a.refusal ≡ refusal) × (a.text.items ≡ text.now)
        × (a.world ≡ None)) }
{
    Ok(Answer {
        refusal,
        text: Vec::from_slice(alloc, text.as_bytes())?,
        world: None,
    })
}

/// The answer to a text that is refused.
pub(crate) fn refused(alloc: Global, fault: Fault) -> Result<Answer, AllocError>
    ensures due { IfOk result (λ a. made a ≡ due_refused fault) }
    ensures world { IfOk result (λ a. a.world ≡ None) }
    ensures written { IfOk result (λ a. IsWritten a.refusal) }
{
    let text = refused_text(alloc, fault)?;
    Ok(Answer {
        refusal: Refusal::Refused {
            kind: fault.kind,
            line: fault.at.line,
            column: fault.at.column,
        },
        text: text.into_bytes(),
        world: None,
    })
}

/// The history text of a run, where the options ask for it.
fn told(
    alloc: Global,
    options: &Options,
    program: &Accepted,
    history: &History,
) -> Result<Vec<u8>, AllocError>
    requires { IsNamed program.now }
    ensures text { IfOk result (λ text. text.items
        ≡ told_of options.now.history program.now options.now.cores options.now.steps history.now) }
    ensures reads { OnOk result (options.now.history ≡ true
        → legal program.now options.now.cores options.now.steps history.now ≡ true
        → ReadsBack program.now options.now.cores options.now.steps history.now
        (history_text program.now options.now.cores options.now.steps history.now)) }
{
    if options.history {
        let text = write(alloc, program, options.cores, options.steps, history)?;
        Ok(text)
    } else {
        Ok(Vec::new(alloc))
    }
}

/// The counts of all cores, where the options ask for them.
fn counted(alloc: Global, options: &Options, ends: &CoreEnds) -> Result<Vec<u8>, AllocError>
    ensures { IfOk result (λ text. text.items ≡ counted_of options.now.counts ends.now) }
{
    if options.counts {
        let text = counts_text(alloc, ends)?;
        Ok(text.into_bytes())
    } else {
        Ok(Vec::new(alloc))
    }
}

/// Adds the lines that tell how a run ended.
fn add_ending(
    alloc: Global,
    text: &mut String,
    program: &Accepted,
    ending: &Ending,
) -> Result<(), AllocError>
    ensures { OnOk result (string_bytes text.new
        ≡ string_bytes text.old ++ lines_at program.now ending.now) }
{
    match ending {
        Ending::Complete { contents } => {
            let shown = show_text(alloc, program, contents)?;
            text.push_str(shown.as_str())?;
            Ok(())
        }
        Ending::Trapped { trap } => write_trap(text, *trap),
        Ending::Limited { at } => write_limit(text, *at),
        Ending::Stalled => Ok(()),
    }
}

/// Why a run ended as it did.
fn refusal(ending: &Ending) -> Refusal
    ensures { result ≡ refusal_at ending.now }
{
    match ending {
        Ending::Complete { .. } => Refusal::Nothing,
        Ending::Trapped { trap } => Refusal::Trap {
            kind: trap.kind,
            task: trap.task,
        },
        Ending::Limited { at } => Refusal::EventLimit {
            core: at.core,
            clock: at.clock,
        },
        Ending::Stalled => Refusal::Stalled,
    }
}

/// The text of a run: its prints, the lines that tell how it ended, and what else the options ask for.
fn text_of(
    alloc: Global,
    program: &Accepted,
    history: &History,
    ending: &Ending,
    more: &[u8],
) -> Result<Vec<u8>, AllocError>
    ensures { IfOk result (λ text. text.items ≡ text_at program.now history.now ending.now more.now) }
{
    if let Ending::Stalled = ending {
        return Vec::from_slice(alloc, STALLED.as_bytes());
    }
    let mut text = prints(alloc, history.as_slice())?;
    add_ending(alloc, &mut text, program, ending)?;
    let mut text = text.into_bytes();
    text.extend_from_slice(more)?;
    Ok(text)
}

/// The answer to a run.
fn ran(alloc: Global, options: &Options, program: &Accepted, ran: Ran) -> Result<Answer, AllocError>
    requires named { IsNamed program.now }
    requires ends { IsEnding ran.ending (ended_as (setup_of options.now) program.now ran.world) }
    ensures due { IfOk result (λ a. due_run options.now program.now a.world ≡ Some (made a)) }
    ensures world { IfOk result (λ a. a.world ≡ Some ran.world) }
    ensures told { OnOk result (options.now.history ≡ true
        → legal program.now options.now.cores options.now.steps ran.world.history ≡ true
        → ReadsBack program.now options.now.cores options.now.steps ran.world.history
        (history_text program.now options.now.cores options.now.steps ran.world.history)) }
    ensures written { IfOk result (λ a. IsWritten a.refusal) }
{
    let Ran { world, ending } = ran;
    let mut more = told(alloc, options, program, &world.history)?;
    let counts = counted(alloc, options, &world.cores)?;
    more.extend_from_slice(counts.as_slice())?;
    let text = text_of(alloc, program, &world.history, &ending, more.as_slice())?;
    Ok(Answer {
        refusal: refusal(&ending),
        text,
        world: Some(world),
    })
}

/// The answer to an accepted program that is to be run.
fn run_accepted<R: Threads + Sync, G: Gate>(
    rt: &R,
    alloc: Global,
    options: &Options,
    program: &Accepted,
    reducers: &Reducers,
    gate: &G,
) -> Result<Answer, AllocError>
    requires limits { IsWithinLimits options.now }
    requires named { IsNamed program.now }
    requires runnable { IsRunnable program.now }
    ensures due { IfOk result (λ a. due_run options.now program.now a.world ≡ Some (made a)) }
    ensures runs { IfOk result (λ a. IfSome a.world (IsRunOf options.now program.now)) }
    ensures written { IfOk result (λ a. IsWritten a.refusal) }
{
    let run = run_program(
        rt,
        alloc,
        program,
        setup(options),
        options.slice,
        reducers,
        gate,
    )?;
    ran(alloc, options, program, run)
}

/// The answer to an accepted program.
fn accepted<R: Threads + Sync, G: Gate>(
    rt: &R,
    alloc: Global,
    options: &Options,
    program: &Accepted,
    reducers: &Reducers,
    gate: &G,
) -> Result<Answer, AllocError>
    requires limits { IsWithinLimits options.now }
    requires named { IsNamed program.now }
    requires runnable { IsRunnable program.now }
    ensures due { IfOk result (λ a.
        due_accepted options.now.command options.now program.now a.world ≡ Some (made a)) }
    ensures runs { IfOk result (λ a. IfSome a.world (IsRunOf options.now program.now)) }
    ensures written { IfOk result (λ a. IsWritten a.refusal) }
{
    match options.command {
        Command::Check => said(alloc, Refusal::Nothing, "accepted\n"),
        Command::Run | Command::Replay | Command::Bench => {
            run_accepted(rt, alloc, options, program, reducers, gate)
        }
    }
}

/// The answer to a command on a program text.
pub(crate) fn run_text<R: Threads + Sync, G: Gate>(
    rt: &R,
    alloc: Global,
    options: &Options,
    text: &[u8],
    reducers: &Reducers,
    gate: &G,
) -> Result<Answer, AllocError>
    requires limits { IsWithinLimits options.now }
    ensures due { IfOk result (λ a. (reading : Reading) × ReadsAs text.now reading
        × (due_read options.now reading a.world ≡ Some (made a))) }
    ensures world { IfOk result (λ a. IfSome a.world (λ world. (p : Program)
        × ReadsAs text.now (accepted_as p) × IsRunOf options.now p world)) }
    ensures written { IfOk result (λ a. IsWritten a.refusal) }
{
    let read = read_text(alloc, text)?;
    texts_are_runnable();
    match read {
        TextRead::Accepted { program } => {
            let answer = accepted(rt, alloc, options, &program, reducers, gate)?;
            Ok(answer)
        }
        TextRead::Refused { fault } => {
            let answer = refused(alloc, fault)?;
            Ok(answer)
        }
    }
}

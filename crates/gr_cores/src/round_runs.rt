//! Runs in rounds.
use crate::contents::contents;
use crate::lines::{Step, kinds_line};
use crate::mark_text::front;
use crate::rounds::{Outcome, Plan, Rounds, outcome_word};
use crate::row::Row;
use crate::telling::{Left, carried_text, ends_told, finished, no_world, step_line};
use crate::verdicts::verdict;
use crate::world::World;
use gr_accept::Accepted;
use gr_code::Code;
use gr_history::history;
use gr_lang::{Entry, History, Op};
use gr_machine::CoreEnd;
use gr_reduce::Reducers;
use std::alloc::{AllocError, Global};

/// What a run in rounds has come to: why it ended, its events, what stands in its objects, and what its cores left.
#[derive(Drop)]
struct Ended {
    outcome: Outcome,
    steps: Vec<Step>,
    contents: Vec<String>,
    left: Left,
}

fn plan(row: &Row, code: &Code) -> Plan {
    Plan {
        setup: row.setup,
        objects: code.objects().len() as u64,
        slice: row.course.slice,
        seed: row.course.seed,
    }
}

/// Runs a world to its end.
fn run<'a>(
    alloc: Global,
    row: &Row,
    code: &Code,
    world: World<'a>,
    reducers: &Reducers,
) -> Result<Ended, AllocError> {
    let mut rounds = Rounds::new(alloc, world, plan(row, code));
    let outcome = rounds.run(reducers)?;
    let Rounds { world, steps, .. } = rounds;
    let contents = contents(alloc, code, world.cores())?;
    let left = finished(alloc, world)?;
    Ok(Ended {
        outcome,
        steps,
        contents,
        left,
    })
}

/// Whether so many events were made at least.
fn least_line(alloc: Global, least: u64, made: u64) -> Result<String, AllocError> {
    if made < least {
        format!(in alloc; "events fewer than {least}: {made}")
    } else {
        format!(in alloc; "events at least {least}")
    }
}

/// The events, a line each.
fn steps_told(
    alloc: Global,
    told: &mut Vec<String>,
    program: &Accepted,
    ends: &[CoreEnd],
    steps: &[Step],
) -> Result<(), AllocError> {
    for step in steps {
        told.push(step_line(alloc, program, ends, *step)?)?;
    }
    Ok(())
}

/// What the row asks to be written of the events and the cores.
fn shown_told(
    alloc: Global,
    told: &mut Vec<String>,
    row: &Row,
    program: &Accepted,
    ended: &Ended,
) -> Result<(), AllocError> {
    let ends = ended.left.ends.as_slice();
    let steps = ended.steps.as_slice();
    if let Some(least) = row.shown.least {
        told.push(least_line(alloc, least, steps.len() as u64)?)?;
    }
    if row.shown.kinds {
        told.push(kinds_line(alloc, ends)?)?;
    }
    if row.shown.lines {
        steps_told(alloc, told, program, ends, steps)?;
    }
    if row.shown.counts {
        ends_told(alloc, told, &ended.left)?;
    }
    Ok(())
}

/// A word that an entry prints goes last; a trap is told at once.
fn print_told(
    alloc: Global,
    told: &mut Vec<String>,
    prints: &mut String,
    entry: &Entry,
) -> Result<(), AllocError> {
    match entry {
        Entry::Call {
            op: Op::Print { word },
            ..
        } => prints
            .push_str(format!(in alloc; " {word}")?.as_str())
            .map_err(|_| AllocError),
        Entry::Trap { task, kind } => {
            let kind = kind.word();
            told.push(format!(in alloc; "trap {kind} task {}.{}", task.core, task.number)?)
                .map_err(|_| AllocError)
        }
        _ => Ok(()),
    }
}

/// The words that a history prints, and its trap.
fn prints_told(alloc: Global, told: &mut Vec<String>, history: &History) -> Result<(), AllocError> {
    let mut prints = String::from_str(alloc, "prints")?;
    for entry in history.as_slice() {
        print_told(alloc, told, &mut prints, entry)?;
    }
    told.push(prints).map_err(|_| AllocError)
}

/// How a run in rounds ended: why, whether its history is legal, and where it is over how many entries that has.
fn last_line(
    alloc: Global,
    row: &Row,
    program: &Accepted,
    history: &History,
    outcome: Outcome,
    carried: &str,
) -> Result<String, AllocError> {
    let word = outcome_word(outcome);
    let verdict = verdict(alloc, program, row.setup, history)?;
    let whole = verdict.as_str();
    let text = if outcome == Outcome::Over {
        whole
    } else {
        front(whole, ",")
    };
    format!(in alloc; "{word}, {text}, {carried}")
}

/// What was printed, what stands in objects, and how the run ended.
fn end_told(
    alloc: Global,
    told: &mut Vec<String>,
    row: &Row,
    program: &Accepted,
    ended: Ended,
    reducers: &Reducers,
) -> Result<(), AllocError> {
    let Ended {
        outcome,
        contents,
        left,
        ..
    } = ended;
    let history = history(alloc, &left.ends, reducers)?;
    prints_told(alloc, told, &history)?;
    if outcome == Outcome::Over {
        for text in contents {
            told.push(text)?;
        }
    }
    let carried = carried_text(left.ends.as_slice());
    told.push(last_line(alloc, row, program, &history, outcome, carried)?)
        .map_err(|_| AllocError)
}

/// What became of a run in rounds.
pub fn rounds_told(
    alloc: Global,
    row: &Row,
    program: &Accepted,
    code: &Code,
    reducers: &Reducers,
    told: &mut Vec<String>,
) -> Result<(), AllocError> {
    let Some(world) = World::start(alloc, row.setup, code)? else {
        return no_world(alloc, told);
    };
    let ended = run(alloc, row, code, world, reducers)?;
    shown_told(alloc, told, row, program, &ended)?;
    end_told(alloc, told, row, program, ended, reducers)
}

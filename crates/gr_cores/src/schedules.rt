//! Runs by a schedule.
use crate::event_text::{enabled_text, event_text};
use crate::lines::{Step, add_flights};
use crate::mark_text::entry_lines;
use crate::row::{Planned, Row};
use crate::telling::{Left, carried_text, ends_told, finished, no_world, step_line};
use crate::verdicts::verdict;
use crate::world::{Made, World};
use gr_accept::Accepted;
use gr_code::Code;
use gr_history::history;
use gr_lang::History;
use gr_machine::CoreEnd;
use gr_reduce::Reducers;
use std::alloc::{AllocError, Global};

/// A step, or a line in its place.
#[derive(Drop)]
enum Played {
    Step { step: Step },
    Line { line: String },
}

/// The events that a core may make.
fn enabled_line(
    alloc: Global,
    row: &Row,
    code: &Code,
    world: &World,
    at: usize,
) -> Result<Played, AllocError> {
    let objects = code.objects().len() as u64;
    let line = match world.cores().get(at) {
        Some(core) => enabled_text(alloc, core, row.setup.cores, objects)?,
        None => String::from_str(alloc, "no core")?,
    };
    Ok(Played::Line { line })
}

/// Why an event was not made.
fn not_made(alloc: Global, planned: Planned, why: &str) -> Result<Played, AllocError> {
    let event = event_text(alloc, planned.event)?;
    let core = planned.core;
    let line = format!(in alloc; "{core} {event}: {why}")?;
    Ok(Played::Line { line })
}

/// Makes an event.
fn play_one(
    alloc: Global,
    world: &mut World,
    planned: Planned,
    reducers: &Reducers,
) -> Result<Played, AllocError> {
    let core = planned.core as usize;
    match world.step(core, planned.event, reducers)? {
        Made::Done => Ok(Played::Step {
            step: Step {
                core,
                clock: world.clock(core),
                event: planned.event,
            },
        }),
        Made::NotDone => not_made(alloc, planned, "not done"),
        Made::NotEnabled => not_made(alloc, planned, "not enabled"),
    }
}

/// Makes the events of a schedule, after each of which all cores meet.
fn play(
    alloc: Global,
    row: &Row,
    code: &Code,
    world: &mut World,
    events: &[Planned],
    reducers: &Reducers,
) -> Result<Vec<Played>, AllocError> {
    let mut played = Vec::new(alloc);
    for planned in events {
        if row.shown.enabled {
            played.push(enabled_line(alloc, row, code, world, planned.core as usize)?)?;
        }
        played.push(play_one(alloc, world, *planned, reducers)?)?;
        world.meet();
    }
    if let Some(core) = row.shown.behind {
        played.push(enabled_line(alloc, row, code, world, core as usize)?)?;
    }
    Ok(played)
}

/// A line for each event.
fn played_told(
    alloc: Global,
    told: &mut Vec<String>,
    program: &Accepted,
    ends: &[CoreEnd],
    played: Vec<Played>,
) -> Result<(), AllocError> {
    for one in played {
        told.push(match one {
            Played::Step { step } => step_line(alloc, program, ends, step)?,
            Played::Line { line } => line,
        })?;
    }
    Ok(())
}

/// The entries of a history in a line each.
fn history_told(
    alloc: Global,
    told: &mut Vec<String>,
    program: &Accepted,
    history: &History,
) -> Result<(), AllocError> {
    for line in entry_lines(alloc, program, history)? {
        told.push(line)?;
    }
    Ok(())
}

/// What is in flight to each core, and whether what was taken is what was shipped.
fn packets_told(alloc: Global, told: &mut Vec<String>, ends: &[CoreEnd]) -> Result<(), AllocError> {
    for end in ends {
        add_flights(alloc, told, end)?;
    }
    told.push(String::from_str(alloc, carried_text(ends))?)
        .map_err(|_| AllocError)
}

/// What a run has come to: the counts of its cores, its history and what that is, and its packets.
fn end_told(
    alloc: Global,
    told: &mut Vec<String>,
    row: &Row,
    program: &Accepted,
    left: &Left,
    reducers: &Reducers,
) -> Result<(), AllocError> {
    ends_told(alloc, told, left)?;
    let history = history(alloc, &left.ends, reducers)?;
    history_told(alloc, told, program, &history)?;
    told.push(verdict(alloc, program, row.setup, &history)?)?;
    packets_told(alloc, told, left.ends.as_slice())
}

/// What became of a run by a schedule.
pub fn schedule_told(
    alloc: Global,
    row: &Row,
    program: &Accepted,
    code: &Code,
    events: &[Planned],
    reducers: &Reducers,
    told: &mut Vec<String>,
) -> Result<(), AllocError> {
    let Some(mut world) = World::start(alloc, row.setup, code)? else {
        return no_world(alloc, told);
    };
    let played = play(alloc, row, code, &mut world, events, reducers)?;
    let left = finished(alloc, world)?;
    played_told(alloc, told, program, left.ends.as_slice(), played)?;
    if row.shown.enabled || row.shown.behind.is_some() {
        return Ok(());
    }
    end_told(alloc, told, row, program, &left, reducers)
}

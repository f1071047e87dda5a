//! The rows.
use crate::event_text::event_of;
use crate::world::is_setup;
use gr_machine::{Event, Setup};
use serde_json::Value;
use std::alloc::{AllocError, Global};

/// An event that a core is to make.
#[derive(Clone, Copy)]
pub struct Planned {
    pub core: u64,
    pub event: Event,
}

/// How a row without a schedule is run in rounds: how many events a core makes at most in its turn, and 0, or where the
/// draws begin by which events are picked. Of a load it is said how many events are made instead.
#[derive(Clone, Copy)]
pub struct Course {
    pub slice: u64,
    pub seed: u64,
    pub load: Option<u64>,
}

/// What is written of a run: the events one by one, and the counts of the cores; before each event of a schedule which
/// ones are enabled, and behind the last one those of a core; of a long run, how many events it has at least, and which
/// kinds of messages are shipped.
#[derive(Clone, Copy)]
pub struct Shown {
    pub lines: bool,
    pub counts: bool,
    pub enabled: bool,
    pub behind: Option<u64>,
    pub least: Option<u64>,
    pub kinds: bool,
}

/// A row: its name, the numbers of the run, the program, and the schedule, or else how it is run in rounds; and what is
/// written of it.
#[derive(Drop)]
pub struct Row<'a> {
    pub name: &'a str,
    pub setup: Setup,
    pub text: &'a str,
    pub schedule: Option<Vec<Planned>>,
    pub course: Course,
    pub shown: Shown,
}

fn number(value: &Value, name: &str) -> Option<u64> {
    value.get(name).and_then(Value::as_u64)
}

/// Whether a number is there that isn't 0.
fn is_set(value: &Value, name: &str) -> bool {
    number(value, name).unwrap_or(0) != 0
}

fn string<'a>(value: &'a Value, name: &str) -> Option<&'a str> {
    value.get(name).and_then(Value::as_str)
}

/// The numbers of a run, where they are in their ranges.
fn setup(value: &Value) -> Option<Setup> {
    let setup = Setup {
        cores: number(value, "cores")?,
        block: number(value, "block")?,
        limit: number(value, "limit")?,
        steps: number(value, "steps")?,
        events: number(value, "events")?,
    };
    if is_setup(setup) { Some(setup) } else { None }
}

fn read_course(value: &Value) -> Course {
    Course {
        slice: number(value, "slice").unwrap_or(1).max(1),
        seed: number(value, "seed").unwrap_or(0),
        load: number(value, "load"),
    }
}

fn read_shown(value: &Value) -> Shown {
    Shown {
        lines: is_set(value, "lines"),
        counts: is_set(value, "counts"),
        enabled: is_set(value, "enabled"),
        behind: number(value, "behind"),
        least: number(value, "least"),
        kinds: is_set(value, "kinds"),
    }
}

/// The event of a text, as `1 take 0`, of which the first number is the core.
fn planned_in(text: &str) -> Option<Planned> {
    let (core, rest) = text.split_once(" ")?;
    let core = core.parse::<u64>().ok()?;
    let event = event_of(rest)?;
    Some(Planned { core, event })
}

/// The events of a schedule; none where one of the texts isn't one.
fn schedule(alloc: Global, items: &[Value]) -> Result<Option<Vec<Planned>>, AllocError> {
    let mut events = Vec::new(alloc);
    for item in items {
        match item.as_str().and_then(planned_in) {
            Some(event) => events.push(event)?,
            None => return Ok(None),
        }
    }
    Ok(Some(events))
}

/// A row with these texts and numbers; none where its schedule isn't one.
fn with_schedule<'a>(
    alloc: Global,
    value: &'a Value,
    name: &'a str,
    text: &'a str,
    setup: Setup,
) -> Result<Option<Row<'a>>, AllocError> {
    let mut row = Row {
        name,
        setup,
        text,
        schedule: None,
        course: read_course(value),
        shown: read_shown(value),
    };
    if let Some(items) = value.get("schedule").and_then(Value::as_array) {
        row.schedule = schedule(alloc, items.as_slice())?;
        if row.schedule.is_none() {
            return Ok(None);
        }
    }
    Ok(Some(row))
}

/// The row of a value; none where it isn't one.
pub fn read_row<'a>(alloc: Global, value: &'a Value) -> Result<Option<Row<'a>>, AllocError> {
    match (string(value, "name"), string(value, "text"), setup(value)) {
        (Some(name), Some(text), Some(setup)) => with_schedule(alloc, value, name, text, setup),
        _ => Ok(None),
    }
}

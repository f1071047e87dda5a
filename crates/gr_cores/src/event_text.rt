//! The texts of events.
use gr_core::Core;
use gr_machine::Event;
use gr_syntax::HEAP;
use std::alloc::{AllocError, Global};

/// The kinds of events.
#[derive(Clone, Copy)]
enum Kind {
    Serve,
    Run,
    Take,
    Ship,
    Close,
    Steal,
}

fn kind_of(word: &str) -> Option<Kind> {
    match word {
        "serve" => Some(Kind::Serve),
        "run" => Some(Kind::Run),
        "take" => Some(Kind::Take),
        "ship" => Some(Kind::Ship),
        "close" => Some(Kind::Close),
        "steal" => Some(Kind::Steal),
        _ => None,
    }
}

/// The event of a kind with a number, or with none.
fn event_with(kind: Kind, number: Option<u64>) -> Option<Event> {
    match (kind, number) {
        (Kind::Serve, None) => Some(Event::Serve),
        (Kind::Run, None) => Some(Event::Run),
        (Kind::Take, Some(from)) => Some(Event::Take { from }),
        (Kind::Ship, Some(dest)) => Some(Event::Ship { dest }),
        (Kind::Close, Some(object)) => Some(Event::Close { object }),
        (Kind::Steal, Some(victim)) => Some(Event::Steal { victim }),
        _ => None,
    }
}

/// The event of a text, as `take 0`.
pub fn event_of(text: &str) -> Option<Event> {
    let mut words = text.split_whitespace();
    let kind = kind_of(words.next()?)?;
    let number = words.next().and_then(|word| word.parse::<u64>().ok());
    event_with(kind, number)
}

/// The text of an event.
pub fn event_text(alloc: Global, event: Event) -> Result<String, AllocError> {
    match event {
        Event::Serve => String::from_str(alloc, "serve"),
        Event::Run => String::from_str(alloc, "run"),
        Event::Take { from } => format!(in alloc; "take {from}"),
        Event::Ship { dest } => format!(in alloc; "ship {dest}"),
        Event::Close { object } => format!(in alloc; "close {object}"),
        Event::Steal { victim } => format!(in alloc; "steal {victim}"),
    }
}

/// A number of which there is no core and no object.
const ABSENT: u64 = 9;

/// All events that a core could make, and one of each kind that names what there isn't.
fn all_events(alloc: Global, cores: u64, objects: u64) -> Result<Vec<Event>, AllocError> {
    let mut events = Vec::new(alloc);
    events.push(Event::Serve)?;
    events.push(Event::Run)?;
    for from in (0..cores).chain(ABSENT..ABSENT + 1) {
        events.push(Event::Take { from })?;
    }
    for dest in (0..cores).chain(ABSENT..ABSENT + 1) {
        events.push(Event::Ship { dest })?;
    }
    for object in 0..objects {
        events.push(Event::Close { object })?;
    }
    events.push(Event::Close { object: HEAP })?;
    events.push(Event::Close { object: ABSENT })?;
    for victim in (0..cores).chain(ABSENT..ABSENT + 1) {
        events.push(Event::Steal { victim })?;
    }
    Ok(events)
}

/// Those that a core may make.
pub fn enabled_text(
    alloc: Global,
    core: &Core,
    cores: u64,
    objects: u64,
) -> Result<String, AllocError> {
    let mut text = String::from_str(alloc, "enabled:")?;
    let events = all_events(alloc, cores, objects)?;
    for event in events.as_slice() {
        if core.enabled(*event) {
            text.push_str(" ")?;
            text.push_str(event_text(alloc, *event)?.as_str())?;
            text.push_str(",")?;
        }
    }
    Ok(text)
}

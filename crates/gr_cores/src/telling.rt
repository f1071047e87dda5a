//! What all runs tell of themselves: how their cores stand, their history and their packets.
use crate::lines::{Step, are_carried, end_line, line};
use crate::world::World;
use gr_accept::Accepted;
use gr_core::Core;
use gr_machine::{CoreEnd, CoreEnds};
use std::alloc::{AllocError, Global};

/// What a run has left: how each core stands, in a word, and its end.
#[derive(Drop)]
pub struct Left {
    pub statuses: Vec<&'static str>,
    pub ends: CoreEnds,
}

/// Whether a core is halted, in a word.
fn status(core: &Core) -> &'static str {
    if core.passed() {
        "over"
    } else if core.trapped() {
        "trapped"
    } else {
        "going"
    }
}

fn statuses(alloc: Global, cores: &[Core]) -> Result<Vec<&'static str>, AllocError> {
    let mut words = Vec::new(alloc);
    for core in cores {
        words.push(status(core))?;
    }
    Ok(words)
}

/// Brings a run to its end.
pub fn finished(alloc: Global, world: World) -> Result<Left, AllocError> {
    let statuses = statuses(alloc, world.cores())?;
    let ends = world.finish(alloc)?;
    Ok(Left { statuses, ends })
}

/// The numbers of the run are out of range.
pub fn no_world(alloc: Global, told: &mut Vec<String>) -> Result<(), AllocError> {
    told.push(String::from_str(alloc, "no world")?)
        .map_err(|_| AllocError)
}

/// The line of an event, by the end of its core.
pub fn step_line(
    alloc: Global,
    program: &Accepted,
    ends: &[CoreEnd],
    step: Step,
) -> Result<String, AllocError> {
    match ends.get(step.core) {
        Some(end) => line(alloc, program, end, step),
        None => String::from_str(alloc, "no core"),
    }
}

/// A line for each core.
pub fn ends_told(alloc: Global, told: &mut Vec<String>, left: &Left) -> Result<(), AllocError> {
    for (end, status) in left.ends.as_slice().iter().zip(left.statuses.as_slice()) {
        told.push(end_line(alloc, end, status)?)?;
    }
    Ok(())
}

/// Whether the packets that were taken are those that were shipped.
pub fn carried_text(ends: &[CoreEnd]) -> &'static str {
    if are_carried(ends) {
        "packets as shipped"
    } else {
        "other packets"
    }
}

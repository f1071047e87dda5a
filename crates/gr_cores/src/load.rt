//! Loads, which are timed: events of one core, made with no more work than these.
use crate::contents::contents;
use crate::row::Row;
use crate::telling::{ends_told, finished, no_world};
use crate::world::{Made, World};
use gr_code::Code;
use gr_machine::Event;
use gr_reduce::Reducers;
use std::alloc::{AllocError, Global};

/// Makes so many events of the first core, each a Run where it may make one, and else a Serve. It makes fewer, where it
/// may make neither.
fn make(world: &mut World, events: u64, reducers: &Reducers) -> Result<(), AllocError> {
    for _ in 0..events {
        if world.step(0, Event::Run, reducers)? != Made::Done {
            world.step(0, Event::Serve, reducers)?;
        }
    }
    Ok(())
}

/// What a load of so many events has left in objects, and its counts.
pub fn load_told(
    alloc: Global,
    row: &Row,
    code: &Code,
    events: u64,
    reducers: &Reducers,
    told: &mut Vec<String>,
) -> Result<(), AllocError> {
    let Some(mut world) = World::start(alloc, row.setup, code)? else {
        return no_world(alloc, told);
    };
    make(&mut world, events, reducers)?;
    for text in contents(alloc, code, world.cores())? {
        told.push(text)?;
    }
    let left = finished(alloc, world)?;
    ends_told(alloc, told, &left)
}

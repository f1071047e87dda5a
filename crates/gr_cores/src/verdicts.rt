//! What a history is: legal or not, and complete or open.
use gr_accept::Accepted;
use gr_lang::History;
use gr_machine::Setup;
use gr_plain::{Plain, StepError};
use std::alloc::{AllocError, Global};

/// The number of the first entry that the plain memory doesn't take, from 1 on.
fn first_fault(
    alloc: Global,
    plain: &mut Plain,
    history: &History,
) -> Result<Option<u64>, AllocError> {
    let mut count = 0u64;
    for entry in history.as_slice() {
        count = count.saturating_add(1);
        match plain.step(alloc, entry) {
            Ok(()) => {}
            Err(StepError::NotLegal) => return Ok(Some(count)),
            Err(StepError::OutOfMemory) => return Err(AllocError),
        }
    }
    Ok(None)
}

/// Whether the plain memory takes each entry, and then is at its end.
pub fn verdict(
    alloc: Global,
    program: &Accepted,
    setup: Setup,
    history: &History,
) -> Result<String, AllocError> {
    let mut plain = Plain::start(alloc, program, setup.cores, setup.steps)?;
    if let Some(count) = first_fault(alloc, &mut plain, history)? {
        return format!(in alloc; "not legal at entry {count}");
    }
    let count = history.len();
    if plain.complete() {
        format!(in alloc; "legal complete, entries {count}")
    } else {
        format!(in alloc; "legal open, entries {count}")
    }
}

//! The replay of a history text: whether it is legal, and complete, or which line is no step.
ghost use Rattle.std.specs.Prelude.{◌≡◌, MatchResult, OnOk, None, Some, Err};
ghost use Rattle.gr_replay.specs.Judged.{JudgedText, SaysError, legal};
ghost use Rattle.gr_replay.specs.AdvanceWords.{advanced, error_at};

use crate::entries::entry_in;
use gr_accept::Accepted;
use gr_hist::{HistoryText, NamedEntry};
use gr_names::ProgramNames;
use gr_plain::{Plain, StepError};
use std::alloc::{AllocError, Global};
use thiserror::Error;

/// What is said of a legal history text.
#[derive(Clone, Copy)]
pub struct Replayed {
    /// Whether all work has ended, as the last entry tells.
    pub complete: bool,
}

/// Why a history text isn't legal, or why nothing is said of it.
#[derive(Debug, Drop, Error)]
pub enum ReplayError {
    /// The first entry that isn't legal where it stands. Entries count from 1, the header not counted.
    #[error("not legal at entry {entry}")]
    NotLegal { entry: u64 },
    /// There is no memory.
    #[error("out of memory")]
    OutOfMemory,
}

impl From<AllocError> for ReplayError {
    ghost use Rattle.std.specs.Prelude.{◌≡◌};
    ghost use Rattle.gr_replay.specs.declared.judging.ReplayError.TheVariants as error;

    ghost from_gives = { λ e r. r ≡ error.OutOfMemory };

    fn from(error: AllocError) -> ReplayError {
        let _ = error;
        ReplayError::OutOfMemory
    }
}

/// Takes the entry of a line as the next step.
fn advance(
    alloc: Global,
    names: &ProgramNames,
    plain: &mut Plain,
    line: &NamedEntry,
) -> Result<(), StepError>
    requires { names.now ≡ plain.old.program }
    ensures ok { OnOk result (advanced plain.old line.now ≡ Some plain.new) }
    ensures not_legal { result ≡ Err StepError.NotLegal → advanced plain.old line.now ≡ None }
{
    let found = entry_in(names, line)?;
    match found {
        None => Err(StepError::NotLegal),
        Some(entry) => plain.step(alloc, &entry),
    }
}

/// The error of a step, where it is that of the entry with this number.
fn replay_error(error: StepError, entry: u64) -> ReplayError
    ensures { result ≡ error_at error entry }
{
    match error {
        StepError::NotLegal => ReplayError::NotLegal { entry },
        StepError::OutOfMemory => ReplayError::OutOfMemory,
    }
}

/// Replays a history text on a program, with the number of cores and the limit of steps of its
/// header. It is legal where each line names an entry that is a step after those before it; of any
/// other the first line that is none is reported. A line whose object or task the program doesn't
/// have names no entry. `OutOfMemory` says nothing of the text.
pub fn replay(
    alloc: Global,
    program: &Accepted,
    text: &HistoryText,
) -> Result<Replayed, ReplayError>
    ensures { MatchResult result (λ said. JudgedText program.now text.now (legal said.complete))
        (SaysError program.now text.now) }
{
    let names = ProgramNames::new(alloc, program.program())?;
    let mut plain = Plain::start(alloc, program, text.cores, text.steps)?;
    let lines = text.lines.as_slice();
    for (at, line) in lines.iter().enumerate() {
        let taken = advance(alloc, &names, &mut plain, line);
        if let Err(error) = taken {
            return Err(replay_error(error, at as u64 + 1));
        }
    }
    Ok(Replayed {
        complete: plain.complete(),
    })
}

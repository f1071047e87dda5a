//! How a call ends.
use gr_engine::WorldEnd;
use gr_lang::{TaskId, TrapKind};
use gr_syntax::Kind;

/// Why a call didn't end as it might have.
#[derive(Clone, Copy, PartialEq, Eq)]
pub enum Refusal {
    /// It did: the program ran to its end, or was accepted.
    Nothing,
    /// The text is no program, or isn't accepted. Line and column count from 1.
    Refused { kind: Kind, line: u64, column: u64 },
    /// The words are no command.
    Usage,
    /// A task was trapped; the first trap of the history.
    Trap { kind: TrapKind, task: TaskId },
    /// The source failed.
    ReadFault,
    /// The sink failed after it got so many bytes of the text.
    WriteFault { written: u64 },
    /// Memory was wanting.
    Memory,
    /// The clock of a core came to the limit of events before the run ended: the first such core.
    EventLimit { core: u64, clock: u64 },
    /// The source held more bytes than the command reads.
    TooLong,
    /// The entry with this number, counted from 1, is the first of a replayed history that is no step.
    NotLegal { entry: u64 },
    /// A replayed history text leaves its grammar in this line, counted from 1.
    BadLine { line: u64 },
    /// No core could go on, and the run hadn't ended. Nobody has seen this: it would be a defect of the runtime.
    Stalled,
}

/// The end of a call.
#[derive(Drop)]
pub struct RunEnd {
    /// The exit status: 0 to 11, one for each kind of refusal.
    pub status: u8,
    pub refusal: Refusal,
    /// What is left of the run, where one was made.
    pub world: Option<WorldEnd>,
}

/// An answer whose text is whole, and not yet written.
#[derive(Drop)]
pub(crate) struct Answer {
    pub refusal: Refusal,
    pub text: Vec<u8>,
    pub world: Option<WorldEnd>,
}

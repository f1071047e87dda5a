//! What a history text says: its header and its entries, in which objects and tasks have names.
use gr_accept::Operation;
use gr_lang::{How, Sequence, TaskId, TrapKind, Words};
use gr_syntax::Text;
use std::alloc::AllocError;
use thiserror::Error;

/// An entry of a history as its line tells it.
#[derive(Drop)]
pub enum NamedEntry {
    /// A task's call of an object's operation, with its numbers and its result words. The heap is
    /// the object `heap`. A reducer is a number from 0 to 7.
    Call {
        task: TaskId,
        object: Text,
        op: Operation,
        reducer: Option<u64>,
        numbers: Words,
        reply: Words,
    },
    /// A task prints a word.
    Print {
        task: TaskId,
        word: u64,
    },
    /// A task starts another one.
    Spawn {
        task: TaskId,
        how: How,
        target: Text,
        args: Words,
        child: TaskId,
    },
    /// A task opens a `finish`.
    Finish {
        task: TaskId,
    },
    /// A task opens a `forall`.
    Loop {
        task: TaskId,
        lo: u64,
        hi: u64,
        grain: u64,
        target: Text,
        args: Words,
    },
    /// An index of the owner's `forall` begins as a task of its own.
    Begin {
        owner: TaskId,
        index: u64,
        child: TaskId,
    },
    /// A task passes the end of its `finish` or `forall`.
    Pass {
        task: TaskId,
    },
    /// A task ends.
    End {
        task: TaskId,
    },
    /// A task is trapped.
    Trap {
        task: TaskId,
        kind: TrapKind,
    },
    /// All work has ended.
    Over,
}

/// A list of entries with names.
pub type NamedEntries = Sequence<NamedEntry>;

/// A history text, read: the number of cores, 1 to 16, and the limit of steps, 1 to 2^40, of its
/// header, and the entries of its further lines.
#[derive(Drop)]
pub struct HistoryText {
    pub cores: u64,
    pub steps: u64,
    pub lines: NamedEntries,
}

/// Why a text isn't read.
#[derive(Debug, Drop, Error)]
pub enum HistError {
    /// The first line that the grammar doesn't take; lines count from 1.
    #[error("bad history line {line}")]
    BadLine { line: u64 },
    /// There is no memory.
    #[error("out of memory")]
    OutOfMemory,
}

impl From<AllocError> for HistError {
    ghost use Rattle.std.specs.Prelude.{◌≡◌};
    ghost use Rattle.gr_hist.specs.declared.text.HistError.TheVariants as error;

    ghost from_gives = { λ e r. r ≡ error.OutOfMemory };

    fn from(error: AllocError) -> HistError {
        let _ = error;
        HistError::OutOfMemory
    }
}

//! What tasks do: operations with their words, actions, and the entries of a history.
ghost use Rattle.std.specs.Prelude.{◌≡◌, IfOk};
ghost use Rattle.gr_lang.specs.Fields.{same_reply, same_how, same_trap};
ghost use Rattle.gr_lang.specs.Traps.{trap_word};

use crate::lists::Words;
use gr_accept::Operation;
use std::alloc::AllocError;

/// The name of a task in a run: a core and the number that the core gave it. The first task, `main`, is
/// number 0 of core 0.
#[derive(Clone, Copy, PartialEq, Eq, PartialOrd, Ord)]
pub struct TaskId {
    pub core: u64,
    pub number: u64,
}

/// The two words that a call replies. A word that the call doesn't give is 0.
#[derive(Clone, Copy, PartialEq, Eq)]
pub struct Reply {
    pub first: u64,
    pub second: u64,
}

/// Why a task is trapped.
#[derive(Clone, Copy, PartialEq, Eq)]
pub enum TrapKind {
    /// A divisor of 0.
    Div,
    /// An index outside its array or the heap.
    Place,
    /// `spawn at` a core that there isn't.
    Core,
    /// More pure steps between two actions than the limit.
    Steps,
}

/// Where a new task may run.
#[derive(Clone, Copy, PartialEq, Eq)]
pub enum How {
    /// At the core of the task that spawns it.
    Here,
    /// At the core with this number.
    At { core: u64 },
    /// Wherever a core asks for work.
    Offer,
}

/// An operation with its evaluated words. Objects have numbers from 0 in the order of the text, and the
/// heap has number 255. A reducer is a number from 0 to 7.
#[derive(Clone, Copy, PartialEq, Eq)]
pub enum Op {
    Read {
        object: u64,
        place: u64,
    },
    Write {
        object: u64,
        place: u64,
        word: u64,
    },
    Add {
        object: u64,
        place: u64,
        word: u64,
    },
    Cas {
        object: u64,
        place: u64,
        old: u64,
        new: u64,
    },
    Reduce {
        object: u64,
        reducer: u64,
        place: u64,
        word: u64,
    },
    Insert {
        object: u64,
        key: u64,
    },
    Remove {
        object: u64,
        key: u64,
    },
    Has {
        object: u64,
        key: u64,
    },
    Put {
        object: u64,
        key: u64,
        word: u64,
    },
    Get {
        object: u64,
        key: u64,
    },
    Erase {
        object: u64,
        key: u64,
    },
    Merge {
        object: u64,
        reducer: u64,
        key: u64,
        word: u64,
    },
    Push {
        object: u64,
        word: u64,
    },
    Pop {
        object: u64,
    },
    Dequeue {
        object: u64,
    },
    Alloc {
        count: u64,
    },
    Free {
        place: u64,
    },
    Print {
        word: u64,
    },
}

/// An operation taken apart.
#[derive(Clone, Copy)]
pub enum Parts {
    /// A call: its operation, the number of its object, its reducer, if it takes one, and its words. A word
    /// that the operation doesn't take is 0.
    Call {
        operation: Operation,
        object: u64,
        reducer: Option<u64>,
        words: [u64; 3],
    },
    /// A print, with its word.
    Print {
        word: u64,
    },
}

/// What a task does next, after its pure steps. Tasks have numbers from 0 in the order of the text.
#[derive(Drop)]
pub enum Action {
    /// A call, or a print.
    Call {
        op: Op,
    },
    /// `spawn`, `spawn at` or `offer`
    Spawn {
        how: How,
        target: u64,
        args: Words,
    },
    /// The opening of a `finish`.
    Finish,
    /// The end of a `finish`: the task waits for all work under it.
    Arrive,
    /// `forall`, with a grain of at least 1
    Loop {
        lo: u64,
        hi: u64,
        grain: u64,
        target: u64,
        args: Words,
    },
    /// The end of the task's body.
    End,
    /// A trap: the task does nothing more.
    Trap {
        kind: TrapKind,
    },
}

/// An entry of a history.
#[derive(Drop)]
pub enum Entry {
    /// A task's call, with its reply.
    Call {
        task: TaskId,
        op: Op,
        reply: Reply,
    },
    /// A task starts another one.
    Spawn {
        task: TaskId,
        how: How,
        target: u64,
        args: Words,
        child: TaskId,
    },
    /// A task opens a `finish`.
    Finish {
        task: TaskId,
    },
    /// A task opens a `forall`.
    Loop {
        task: TaskId,
        lo: u64,
        hi: u64,
        grain: u64,
        target: u64,
        args: Words,
    },
    /// An index of the owner's `forall` begins as a task of its own.
    Begin {
        owner: TaskId,
        index: u64,
        child: TaskId,
    },
    /// A task passes the end of its `finish` or `forall`.
    Pass {
        task: TaskId,
    },
    /// A task ends.
    End {
        task: TaskId,
    },
    /// A task is trapped.
    Trap {
        task: TaskId,
        kind: TrapKind,
    },
    /// All work has ended.
    Over,
}

impl Entry {
    /// An equal entry.
    pub fn copy(&self) -> Result<Entry, AllocError>
        ensures { IfOk result (λ copied. copied ≡ self.now) }
    {
        match self {
            Entry::Call { task, op, reply } => Ok(Entry::Call {
                task: *task,
                op: *op,
                reply: *reply,
            }),
            Entry::Spawn {
                task,
                how,
                target,
                args,
                child,
            } => Ok(Entry::Spawn {
                task: *task,
                how: *how,
                target: *target,
                args: args.copy()?,
                child: *child,
            }),
            Entry::Finish { task } => Ok(Entry::Finish { task: *task }),
            Entry::Loop {
                task,
                lo,
                hi,
                grain,
                target,
                args,
            } => Ok(Entry::Loop {
                task: *task,
                lo: *lo,
                hi: *hi,
                grain: *grain,
                target: *target,
                args: args.copy()?,
            }),
            Entry::Begin {
                owner,
                index,
                child,
            } => Ok(Entry::Begin {
                owner: *owner,
                index: *index,
                child: *child,
            }),
            Entry::Pass { task } => Ok(Entry::Pass { task: *task }),
            Entry::End { task } => Ok(Entry::End { task: *task }),
            Entry::Trap { task, kind } => Ok(Entry::Trap {
                task: *task,
                kind: *kind,
            }),
            Entry::Over => Ok(Entry::Over),
        }
    }
}

/// What a call makes of the value of a key or word, which may be absent.
#[derive(Clone, Copy, PartialEq, Eq)]
pub enum Effect {
    /// It stays.
    Keep,
    /// It is this word.
    Present { word: u64 },
    /// It is absent.
    Absent,
    /// The reducer is applied to it and this word; an absent value becomes this word.
    Fold { reducer: u64, word: u64 },
}

/// A call that waits in a slot of its core.
#[derive(Clone, Copy, PartialEq, Eq)]
pub struct WaitingCall {
    pub slot: u64,
    pub id: TaskId,
    pub op: Op,
}

impl Reply {
    /// Whether both words are the same.
    pub fn is(&self, other: &Reply) -> bool
        ensures { result ≡ same_reply self.now other.now }
    {
        self.first == other.first && self.second == other.second
    }
}

impl How {
    /// Whether both are the same place to run.
    pub fn is(&self, other: &How) -> bool
        ensures { result ≡ same_how self.now other.now }
    {
        self == other
    }
}

impl TrapKind {
    /// The word by which it is told.
    pub fn word(self) -> &'static str
        ensures { result.now ≡ trap_word self }
    {
        match self {
            TrapKind::Div => "div",
            TrapKind::Place => "place",
            TrapKind::Core => "core",
            TrapKind::Steps => "steps",
        }
    }

    /// Whether both are the same kind.
    pub fn is(&self, other: &TrapKind) -> bool
        ensures { result ≡ same_trap self.now other.now }
    {
        self == other
    }
}

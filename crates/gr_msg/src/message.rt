//! The kinds of messages, and the units of work that some of them carry.
use gr_lang::{Effect, Sequence, TaskId, Words};

/// The name of a scope: the core that keeps its master, and the number that this core gave it.
#[derive(Clone, Copy, PartialEq, Eq, PartialOrd, Ord)]
pub struct ScopeId {
    pub core: u64,
    pub number: u64,
}

/// Work that no core has begun: a task, or indices of a loop.
#[derive(Drop)]
pub enum Unit {
    /// One task with its arguments, in a scope. When it has ended, the origin core is told.
    Single {
        target: u64,
        args: Words,
        scope: ScopeId,
        origin: u64,
        id: TaskId,
    },
    /// The indices from lo to below hi of the owner's loop. Each is a task with the index before these
    /// arguments. A chunk of more indices than the grain is split before one begins.
    Chunk {
        target: u64,
        args: Words,
        scope: ScopeId,
        origin: u64,
        owner: TaskId,
        lo: u64,
        hi: u64,
        grain: u64,
    },
}

/// A message from one core to another, or to itself.
#[derive(Drop)]
pub enum Msg {
    /// A call on a word, or on the heap's blocks, or a print, for the task in this slot: 1 read, 2 write, 3 add,
    /// 4 cas, 5 alloc, 6 free, 7 print. x is the address, count, place or printed word, y the word or the old
    /// word, z the new word.
    Request {
        slot: u64,
        id: TaskId,
        operation: u64,
        x: u64,
        y: u64,
        z: u64,
    },
    /// The words that a request's call replies.
    Reply {
        slot: u64,
        id: TaskId,
        first: u64,
        second: u64,
    },
    /// Work for the core that takes it.
    Spawn {
        unit: Unit,
    },
    /// The sender becomes an active core of the scope.
    Enrol {
        scope: ScopeId,
    },
    /// The receiver is an active core of the scope.
    EnrolAck {
        scope: ScopeId,
    },
    /// So many tasks of the scope whose origin is the receiver have ended.
    Complete {
        scope: ScopeId,
        count: u64,
    },
    /// The sender is no active core of the scope any more.
    Leave {
        scope: ScopeId,
    },
    /// The sender asks for a unit of work.
    StealAsk,
    /// A unit for the core that asked.
    StealGive {
        unit: Unit,
    },
    /// The folded effect of some calls on one key of an object, or on a word, whose address is the key.
    Batch {
        object: u64,
        key: u64,
        effect: Effect,
        batch: u64,
    },
    /// What stood under a batch's key before it.
    BatchReply {
        batch: u64,
        before: Option<u64>,
    },
    /// The sender asks for a turn at the vector.
    Turn {
        vector: u64,
    },
    /// The receiver has the turn; the vector's words stand from position head to below tail.
    Grant {
        vector: u64,
        head: u64,
        tail: u64,
    },
    /// The sender's turn has ended, and left this head and tail.
    Done {
        vector: u64,
        head: u64,
        tail: u64,
    },
    /// The word is put at a position of the vector.
    ElemPut {
        vector: u64,
        position: u64,
        word: u64,
    },
    /// The word at a position of the vector is taken out.
    ElemGet {
        vector: u64,
        position: u64,
    },
    /// A position is put, or the word that was taken out of it.
    ElemAck {
        vector: u64,
        position: u64,
        got: Option<u64>,
    },
}

/// A list of messages.
pub type Messages = Sequence<Msg>;

//! What tasks in slots wait for.
use gr_msg::ScopeId;

/// What a task in a slot waits for.
#[derive(Clone, Copy)]
pub enum Waits {
    /// Nothing but to be run: its slot is ready.
    Going,
    /// The reply to its call.
    Reply,
    /// That the calls which wait on this object go off.
    Close { object: u64 },
    /// The replies to this batch.
    Batch { batch: u64 },
    /// The turn of its group at this vector.
    Turn { vector: u64 },
    /// That its core may count tasks of this scope.
    Enrolment { scope: ScopeId },
    /// The end of this scope.
    Scope { scope: ScopeId },
    /// Nothing: it is trapped.
    Nothing,
}

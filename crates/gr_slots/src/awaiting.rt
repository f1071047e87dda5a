//! What a task in a slot waits for, as tests.
ghost use Rattle.std.specs.Prelude.{◌≡◌};
ghost use Rattle.gr_machine.specs.Slots as slots;
ghost use Rattle.gr_msg.specs.Scopes.{same_scope as same_scope_of};

use gr_lang::TaskId;
use gr_machine::Waits;
use gr_msg::ScopeId;

fn same_scope(one: ScopeId, other: ScopeId) -> bool
    ensures { result ≡ same_scope_of one other }
{
    one.core == other.core && one.number == other.number
}

/// Whether two names are the same.
pub fn same_id(one: TaskId, other: TaskId) -> bool
    ensures { result ≡ slots.same_id one other }
{
    one.core == other.core && one.number == other.number
}

/// For a reply.
pub fn awaits_reply(waits: Waits) -> bool
    ensures { result ≡ slots.awaits_reply waits }
{
    match waits {
        Waits::Reply => true,
        _ => false,
    }
}

/// For this batch.
pub fn awaits_batch(waits: Waits, number: u64) -> bool
    ensures { result ≡ slots.awaits_batch number waits }
{
    match waits {
        Waits::Batch { batch } => batch == number,
        _ => false,
    }
}

/// For a turn at this vector.
pub fn awaits_turn(waits: Waits, number: u64) -> bool
    ensures { result ≡ slots.awaits_turn number waits }
{
    match waits {
        Waits::Turn { vector } => vector == number,
        _ => false,
    }
}

/// Until its core may count tasks of this scope.
pub fn awaits_enrolment(waits: Waits, scope: ScopeId) -> bool
    ensures { result ≡ slots.awaits_enrolment scope waits }
{
    match waits {
        Waits::Enrolment { scope: other } => same_scope(other, scope),
        _ => false,
    }
}

/// For the end of this scope.
pub fn awaits_scope(waits: Waits, scope: ScopeId) -> bool
    ensures { result ≡ slots.awaits_scope scope waits }
{
    match waits {
        Waits::Scope { scope: other } => same_scope(other, scope),
        _ => false,
    }
}

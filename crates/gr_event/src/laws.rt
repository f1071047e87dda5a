//! The laws of functions of scopes, the contract of a function that does nothing.
ghost use Rattle.gr_event.specs.Laws.{PutsAreOverwritten, PutsAreRead, PutsLeaveOthers};

/// What is put at a scope is what is read there, nothing else changes, and the later of two writes at one scope
/// counts.
pub fn scopes_are_put<T>()
    ensures read { PutsAreRead T }
    ensures others { PutsLeaveOthers T }
    ensures twice { PutsAreOverwritten T }
{}

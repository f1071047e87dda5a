//! The laws, each the contract of a function that does nothing.
ghost use Rattle.gr_scopes_enrols.specs.Laws as laws;

/// A core asks at the scope's master whether it may count.
pub fn enrolments_are_asked_for()
    ensures finds { laws.EnrolsFindMasters }
    ensures keeps { laws.EnrolsKeepScopes }
{}

/// A core may count, and the tasks that waited for that make theirs.
pub fn enrolments_are_answered()
    ensures finds { laws.AcksFindSlots }
    ensures keeps { laws.AcksKeepScopes }
{}

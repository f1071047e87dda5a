//! The laws, each the contract of a function that does nothing.
ghost use Rattle.gr_scopes_stays.specs.Laws as laws;

/// An outcome that leaves the scopes of its core keeps the part.
pub fn scopes_stay_put()
    ensures { laws.ScopesStayPut }
{}

/// A task makes a call, and messages of calls, batches and turns are served.
pub fn calls_keep_scopes()
    ensures run { laws.CallsKeepScopes }
    ensures served { laws.MessagesKeepScopes }
{}

/// A task is trapped, or passes a loop over nothing.
pub fn traps_keep_scopes()
    ensures traps { laws.TrapsKeepScopes }
    ensures far { laws.FarSpawnsKeepScopes }
    ensures empty { laws.EmptyLoopsKeepScopes }
{}

/// The calls of a batch get their replies, calls go off, and turns are finished.
pub fn several_calls_keep_scopes()
    ensures replies { laws.BatchRepliesKeepScopes }
    ensures closes { laws.ClosesKeepScopes }
    ensures turns { laws.TurnEndsKeepScopes }
{}

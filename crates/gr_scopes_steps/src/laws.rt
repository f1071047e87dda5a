//! The laws, each the contract of a function that does nothing.
ghost use Rattle.gr_scopes_steps.specs.Laws as laws;

/// Each piece of an event keeps the part of scopes, with names that may have grown.
pub fn pieces_keep_scopes()
    ensures runs { laws.RunPiecesKeepScopes }
    ensures serves { laws.ServePiecesKeepScopes }
    ensures ends { laws.EndPiecesKeepScopes }
    ensures gifts { laws.GiftPiecesKeepScopes }
    ensures closes { laws.ClosePiecesKeepScopes }
    ensures steals { laws.StealPiecesKeepScopes }
    ensures moves { laws.MovePiecesKeepScopes }
{}

/// The machine opens with the part of scopes, whatever the names are, and each piece keeps it.
pub fn scopes_keep_standing()
    ensures opens { laws.OpeningsHoldScopes }
    ensures kept { laws.PiecesKeepScopes }
{}

/// A task of whose call a message may tell makes a call next.
pub fn askers_call()
    ensures { laws.AskersMakeCalls }
{}

//! The laws, each the contract of a function that does nothing.
ghost use Rattle.gr_scopes.specs.Laws as laws;
ghost use Rattle.gr_scopes.specs.ScopeActs as acts;

/// An outcome that does what the part asks of it keeps the part, and so do a Ship and a Take.
pub fn scopes_are_kept()
    ensures outcomes { acts.ScopesAreKept }
    ensures moves { acts.MovesKeepScopes }
{}

/// Before its first step the machine has the part.
pub fn openings_have_scopes()
    ensures { laws.OpeningsHaveScopes }
{}

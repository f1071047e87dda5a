//! The laws, each the contract of a function that does nothing.
ghost use Rattle.gr_stands_parts.specs.Laws as laws;

/// All parts together are an invariant of steps, and so each run's history is legal and no number in it wraps.
pub fn runs_are_histories()
    ensures parts { laws.PartsAreInvariant }
    ensures runs { laws.RunsAreHistories }
    ensures bounds { laws.RunsStayInBounds }
{}

//! The laws, the contract of a function that does nothing.
ghost use Rattle.gr_fits_loops.specs.Laws as laws;

/// Each loop starts a task that there is, and only indices of its range have begun; no two tasks have the same innermost
/// scope; and a loop over nothing leaves no work.
pub fn loops_fit()
    ensures ranges { laws.ReachedRangesFit }
    ensures apart { laws.InnermostScopesAreApart }
    ensures nothing { laws.LoopsOverNothingLeaveNone }
{}

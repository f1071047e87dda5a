//! The laws, each the contract of a function that does nothing.
ghost use Rattle.gr_stands_series.specs.Laws as laws;

/// The tasks of some calls wait for something else, or go on with their replies.
pub fn lists_are_kept()
    ensures waits { laws.WaitsAreChanged }
    ensures goes { laws.TasksAreResumed }
{}

//! The laws, each the contract of a function that does nothing.
ghost use Rattle.gr_bounds_counts.specs.Laws as laws;

/// What cores count of a scope grows by one at most with a step, above the greatest number of indices of a loop.
pub fn counts_grow()
    ensures { laws.CountsGrow }
{}

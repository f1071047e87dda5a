//! The laws, each the contract of a function that does nothing.
ghost use Rattle.gr_bounds.specs.Laws as laws;

/// What bodies hold and messages in flight weigh, where each outcome of the machine raises it by at most one.
pub fn measures_grow()
    ensures { laws.MeasuresGrow }
{}

//! The law, the contract of a function that does nothing.
ghost use Rattle.gr_batches_closes.specs.Laws as laws;

/// The calls on an object go off, as batches or as a group.
pub fn closes_keep_batches()
    ensures { laws.ClosesKeepBatches }
{}

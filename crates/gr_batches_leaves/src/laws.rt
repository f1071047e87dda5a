//! The laws, each the contract of a function that does nothing.
ghost use Rattle.gr_batches_leaves.specs.Laws as laws;

/// An outcome whose entries are those of tasks in no batch keeps the part, where it leaves the calls of its core.
pub fn entries_leave_batches()
    ensures { laws.EntriesLeaveBatches }
{}

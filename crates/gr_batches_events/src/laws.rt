//! The laws, each the contract of a function that does nothing.
ghost use Rattle.gr_batches_events.specs.Laws as laws;

/// An event that leaves the calls of its core keeps the part; tasks that are in a batch have names of their own.
pub fn batches_stay()
    ensures stay { laws.BatchesStay }
    ensures others { laws.BatchedTasksAreOthers }
    ensures new { laws.NewNamesAreOthers }
{}

/// A task's call joins those that wait on its object.
pub fn calls_join()
    ensures { laws.CallsJoin }
{}

/// The tasks of a batch get their replies.
pub fn batches_come_back()
    ensures { laws.BatchRepliesKeepBatches }
{}

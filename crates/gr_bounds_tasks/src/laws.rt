//! The laws, each the contract of a function that does nothing.
ghost use Rattle.gr_bounds_tasks.specs.Laws as laws;

/// The numbers of tasks and of batches. One event may make many of either: each had a step of its own before, in which a
/// slot came to wait or a call to be combined.
pub fn tasks_grow()
    ensures tasks { laws.TasksGrow }
    ensures batches { laws.BatchesGrow }
{}

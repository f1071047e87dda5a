//! The laws, each the contract of a function that does nothing.
ghost use Rattle.gr_stands_runs.specs.Laws as laws;

/// A ready task makes a call: it is asked of a core, or joins those that wait to be combined.
pub fn calls_run()
    ensures { laws.CallsRun }
{}

/// A ready task at any action acts, and words and calls are kept.
pub fn tasks_run()
    ensures { laws.TasksRun }
{}

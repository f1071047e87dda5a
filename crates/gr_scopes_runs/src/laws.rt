//! The laws, each the contract of a function that does nothing.
ghost use Rattle.gr_scopes_runs.specs.Laws as laws;

/// A ready task acts, whatever its action.
pub fn tasks_keep_scopes()
    ensures { laws.TasksKeepScopes }
{}

/// A unit is taken up: a task starts, a chunk is split, or an index begins.
pub fn units_keep_scopes()
    ensures singles { laws.SinglesLead }
    ensures splits { laws.SplitsLead }
    ensures indices { laws.IndicesLead }
{}

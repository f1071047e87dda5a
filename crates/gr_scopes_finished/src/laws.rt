//! The laws, each the contract of a function that does nothing.
ghost use Rattle.gr_scopes_finished.specs.Laws as laws;

/// Where no core counts anything of a scope, no task stands in it, and no work is left under it.
pub fn work_is_counted()
    ensures tasks { laws.TasksAreCounted }
    ensures work { laws.ScopesAreFinished }
{}

/// Where the last core leaves a scope, no core counts anything of it.
pub fn last_cores_leave_none()
    ensures leaves { laws.LastLeavesLeaveNone }
    ensures arrivals { laws.LastArrivalsLeaveNone }
{}

//! The laws, each the contract of a function that does nothing.
ghost use Rattle.gr_scopes_tells.specs.Laws as laws;

/// The part of scopes tells what a step must know of scopes.
pub fn scopes_tell()
    ensures tasks { laws.TasksAreTold }
    ensures leaves { laws.LeavesAreTold }
    ensures enrolments { laws.EnrolmentsAreTold }
{}

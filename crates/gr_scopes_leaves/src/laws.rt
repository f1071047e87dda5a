//! The laws, each the contract of a function that does nothing.
ghost use Rattle.gr_scopes_leaves.specs.ArrivalLaws as arrivals;
ghost use Rattle.gr_scopes_leaves.specs.Laws as laws;

/// A task ends, and the core that counts its end is told.
pub fn tasks_complete()
    ensures ends { laws.EndsKeepScopes }
    ensures told { laws.CompletesKeepScopes }
{}

/// A core has left a scope: others are active in it, or whoever waits for its end passes.
pub fn cores_leave()
    ensures finds { laws.LeavesFindMasters }
    ensures releases { laws.LastLeavesRelease }
    ensures others { laws.LeavesKeepScopes }
    ensures passes { laws.WaitersPass }
    ensures ends { laws.RunsEnd }
{}

/// A task arrives at the end of its innermost finish.
pub fn tasks_arrive()
    ensures { arrivals.ArrivalsKeepScopes }
{}

//! The laws, each the contract of a function that does nothing.
ghost use Rattle.gr_fits_scopes.specs.Laws as laws;

/// Each task has opened its scopes after the one in which it stands, in order; and all of them are finishes but for the
/// loop at which it waits.
pub fn scopes_are_placed()
    ensures rise { laws.OpenedScopesRise }
    ensures holders { laws.HoldersRise }
    ensures there { laws.InnermostScopesAreThere }
    ensures stand { laws.TasksStandInScopes }
    ensures finishes { laws.OuterScopesAreFinishes }
{}

/// No work is left under a scope where each task in it has ended and each index of its loop has begun; and where none
/// is left at all, each task has ended.
pub fn work_is_done()
    ensures scopes { laws.ScopesAreDone }
    ensures finishes { laws.FinishesAreDone }
    ensures roots { laws.RootsAreDone }
    ensures ended { laws.AllTasksHaveEnded }
    ensures passed { laws.PassedStatesAreDone }
{}

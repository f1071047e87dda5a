//! The laws, each the contract of a function that does nothing.
ghost use Rattle.gr_scopes_opens.specs.Laws as laws;
ghost use Rattle.gr_scopes_opens.specs.SpawnLaws as spawns;

/// A task opens a finish or a loop.
pub fn scopes_open()
    ensures finish { laws.FinishesKeepScopes }
    ensures range { laws.LoopsKeepScopes }
{}

/// A task makes a new one, or waits until its core may count it.
pub fn tasks_spawn()
    ensures counted { spawns.SpawnsKeepScopes }
    ensures asked { spawns.EnrolmentsAreAsked }
    ensures waits { spawns.EnrolmentsWait }
{}

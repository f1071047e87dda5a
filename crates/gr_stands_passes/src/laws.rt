//! The laws, each the contract of a function that does nothing.
ghost use Rattle.gr_stands_passes.specs.Laws as laws;

/// A task passes its innermost scope, where no work is left under it; one that spawns at no core is trapped.
pub fn scopes_are_passed()
    ensures passes { laws.PassesAct }
    ensures traps { laws.SpawnsAreTrapped }
    ensures over { laws.ProgramsEnd }
{}

/// A core leaves a scope: others are active, or the task that waits passes it, or the program ends.
pub fn leaves_are_served()
    ensures { laws.LeavesAreServed }
{}

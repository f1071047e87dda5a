//! The laws, each the contract of a function that does nothing.
ghost use Rattle.gr_stands_wakes.specs.Laws as laws;

/// The task of a slot stands in no other slot and is no unit; so it is of several tasks, and two slots with tasks of one
/// name are one.
pub fn tasks_stand_alone()
    ensures alone { laws.TasksStandAlone }
    ensures slots { laws.SlotsOfOneNameAreOne }
    ensures units { laws.UnitsAreInNoSlot }
    ensures callers { laws.CallersStandAlone }
{}

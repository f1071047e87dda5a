//! The laws, each the contract of a function that does nothing.
ghost use Rattle.gr_stands_chains.specs.Laws as laws;

/// An outcome and another one after it keep the parts, where each does.
pub fn outcomes_follow()
    ensures follows { laws.OutcomesFollowOn }
    ensures quiet { laws.QuietOutcomesAct }
    ensures entry { laws.EntriesAct }
    ensures same { laws.SameTasksStand }
{}

/// Each message in flight comes from a core.
pub fn senders_stand()
    ensures opens { laws.SendersOpen }
    ensures acts { laws.SendersStay }
    ensures moves { laws.SendersMove }
    ensures first { laws.FirstsHaveSenders }
{}

/// An outcome that acts with entries, and another one after it, act with the entries of both.
pub fn actions_follow()
    ensures { laws.ActionsFollow }
{}

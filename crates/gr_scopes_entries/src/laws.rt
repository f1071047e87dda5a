//! The laws, each the contract of a function that does nothing.
ghost use Rattle.gr_scopes_entries.specs.Laws as laws;

/// Where marks are of calls alone, their entries leave the tree of the plain state.
pub fn calls_leave_trees()
    ensures calls { laws.CallMarksLeaveTrees }
    ensures one { laws.OneMarkIsOneStep }
{}

/// Messages of calls, batches and turns, the ends of turns, and Closes leave marks of calls alone.
pub fn events_leave_calls()
    ensures messages { laws.MessagesLeaveCalls }
    ensures replies { laws.BatchRepliesLeaveNone }
    ensures ends { laws.TurnEndsLeaveCalls }
    ensures closes { laws.ClosesLeaveCalls }
{}

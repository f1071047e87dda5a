//! The laws, each the contract of a function that does nothing.
ghost use Rattle.gr_stands_steps.specs.Laws as laws;

/// What a Run and a Serve do first, and a Close, leave waiting for units only cores that there are.
pub fn waiters_are_cores()
    ensures runs { laws.RunsKeepWaiters }
    ensures messages { laws.MessagesKeepWaiters }
    ensures serves { laws.ServesKeepWaiters }
    ensures closes { laws.ClosesKeepWaiters }
{}

/// What a core does in an event acts, and words and calls are kept: what it finds to do first, and the gifts after it.
pub fn outcomes_act()
    ensures runs { laws.RunsAct }
    ensures messages { laws.MessagesAct }
    ensures serves { laws.ServesAct }
    ensures closes { laws.ClosesAct }
    ensures gifts { laws.GiftsFollow }
{}

/// Each step leads from the plain state for which the world stood to one for which it stands then, by the entries of
/// its marks; and it is one of a core that there is.
pub fn steps_stand()
    ensures stand { laws.StepsStand }
    ensures here { laws.StepsAreOfCores }
{}

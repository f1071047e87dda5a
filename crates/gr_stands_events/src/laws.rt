//! The laws, each the contract of a function that does nothing.
ghost use Rattle.gr_stands_events.specs.Laws as laws;

/// A Run and a Serve are outcomes at their core, one after another.
pub fn events_act()
    ensures tasks { laws.TasksRun }
    ensures units { laws.UnitsRun }
    ensures messages { laws.MessagesServe }
{}

/// Where the row of an event acts, the world stands after the event, the gifts at its end included: for the plain state
/// to which its entry leads, or for the same one.
pub fn rows_make_events()
    ensures entries { laws.EntriesStandOn }
    ensures quiet { laws.QuietEventsStand }
{}

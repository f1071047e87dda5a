//! The laws, each the contract of a function that does nothing.
ghost use Rattle.gr_stands_calls.specs.Laws as laws;

/// A call that is asked for by a request: the request is sent, the call made at its home, and the reply taken.
pub fn calls_stand()
    ensures asked { laws.CallsAreAsked }
    ensures made { laws.RequestsAreMade }
    ensures taken { laws.RepliesAreTaken }
{}

/// A task ends, is trapped, or waits for something of which no message tells.
pub fn tasks_stand()
    ensures ended { laws.TasksEnd }
    ensures trapped { laws.TasksAreTrapped }
    ensures waits { laws.WaitsAreKept }
{}

/// Tasks in slots and words stay: units come, or are given away.
pub fn units_stand()
    ensures stays { laws.TasksStayPut }
    ensures comes { laws.UnitsCome }
    ensures gives { laws.UnitsAreGiven }
{}

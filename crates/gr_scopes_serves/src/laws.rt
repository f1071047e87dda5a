//! The laws, each the contract of a function that does nothing.
ghost use Rattle.gr_scopes_serves.specs.Laws as laws;

/// A message comes first in the inbox of a core, whatever its kind.
pub fn messages_keep_scopes()
    ensures enrolments { laws.EnrolmentsLead }
    ensures leaves { laws.LeavesLead }
    ensures messages { laws.MessagesLead }
{}

/// A turn ends, units are given, calls go off, and a core is asked for work.
pub fn inner_events_keep_scopes()
    ensures ends { laws.TurnEndsLead }
    ensures gifts { laws.GiftsLead }
    ensures closes { laws.ClosesLead }
    ensures steals { laws.StealsLead }
{}

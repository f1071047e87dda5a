//! The laws, each the contract of a function that does nothing.
ghost use Rattle.gr_shares_events.specs.Laws as laws;

/// What is done at a core in the course of an event keeps the part of work, where scopes keep their names.
pub fn events_keep_work()
    ensures runs { laws.RunsKeepWork }
    ensures serves { laws.ServesKeepWork }
    ensures ends { laws.EndsKeepWork }
    ensures closes { laws.ClosesKeepWork }
    ensures gives { laws.GivesKeepWork }
    ensures steals { laws.StealsKeepWork }
{}

/// Before the first step the part of work holds, and messages that move keep it. The part of scopes tells what it needs.
pub fn moves_keep_work()
    ensures opens { laws.OpeningsHoldWork }
    ensures moves { laws.MovesKeepWork }
    ensures names { laws.ScopesTellNames }
{}

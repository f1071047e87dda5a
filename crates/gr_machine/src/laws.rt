//! The laws of events and of runs, each the contract of a function that does nothing.
ghost use Rattle.gr_machine.specs.Laws as laws;
ghost use Rattle.gr_machine.specs.Nets as nets;

/// A `Run` leaves the words of its core, and a `Serve` takes no number for a scope.
pub fn events_are_local()
    ensures words { laws.RunsLeaveWords }
    ensures scopes { laws.ServesOpenNothing }
{}

/// The merge of the journals of local runs whose packets match is a global run to their ends, and its marks are the
/// merge of their marks.
pub fn runs_merge()
    ensures clocked { laws.EntriesTick }
    ensures unused { laws.UnusedCoresRun }
    ensures merged { laws.RunsMerge }
{}

/// Without its clocks the machine is a net of messages between cores.
pub fn machine_is_net()
    ensures outcomes { nets.OutcomesAreTheNets }
    ensures ships { nets.ShipsAreTheNets }
    ensures takes { nets.TakesAreTheNets }
    ensures counts { nets.BuffersAddUp }
{}

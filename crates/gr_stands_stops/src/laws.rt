//! The laws, each the contract of a function that does nothing.
ghost use Rattle.gr_stands_stops.specs.Laws as laws;

/// In each run each core's stops are what its marks make of them. No core but core 0 passes the root,
/// and a task is trapped at some core exactly where the history has a trap.
pub fn stops_tell()
    ensures follow { laws.StopsFollowMarks }
    ensures tell { laws.StopsTellInRuns }
{}

//! The laws, each the contract of a function that does nothing.
ghost use Rattle.gr_bounds_tells.specs.Laws as laws;

/// What a granted turn pushes has room, and so has all else that is numbered and counted. In a run within its limits no
/// guard against numbers that wrap drops anything.
pub fn bounds_open()
    ensures grants { laws.GrantsAreTold }
    ensures guards { laws.GuardsStandOpen }
    ensures runs { laws.RunsHaveBounds }
    ensures drops { laws.RunsDropNothing }
{}

//! The laws, each the contract of a function that does nothing.
ghost use Rattle.gr_bounds_stands.specs.Laws as laws;

/// A run begins with the part, and each step keeps it with one step more. Where the world stands for a plain state, what a
/// step needs of loops is told by that.
pub fn bounds_stand()
    ensures opening { laws.OpeningsHaveBounds }
    ensures steps { laws.StepsKeepBounds }
    ensures loops { laws.LoopsAreTold }
{}

/// In a run the steps are few, and so the part tells that counts, active cores and numbers are low enough: no spawn and no
/// Enrol is dropped for them.
pub fn bounds_tell()
    ensures told { laws.BoundsAreTold }
    ensures runs { laws.RunsHaveFewSteps }
    ensures spawns { laws.SpawnsMayCount }
    ensures enrols { laws.CoresMayEnrol }
{}

//! The laws, each the contract of a function that does nothing.
ghost use Rattle.gr_fits.specs.Laws as laws;

/// The opening state is reached, and so is what entries lead to from a state that is reached; and each such state is
/// valid.
pub fn states_are_reached()
    ensures opens { laws.OpeningsAreReached }
    ensures steps { laws.StepsReach }
    ensures entries { laws.EntriesReach }
    ensures valid { laws.ReachedStatesAreValid }
{}

/// In each state that is reached, each task's next action fits.
pub fn actions_fit()
    ensures states { laws.ReachedStatesFit }
    ensures slots { laws.SlotsFit }
    ensures names { laws.NamedProgramsHaveOneHeap }
{}

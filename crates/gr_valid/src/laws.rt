//! The laws, each the contract of a function that does nothing.
ghost use Rattle.gr_valid.specs.Ends.{CompleteIsUntrapped, FrontsAreLegal, NothingFollowsOver};
ghost use Rattle.gr_valid.specs.Work.{OpensValid, StepsValid, HistoriesValid, WorkIsDirect};

/// The opening state is valid, and a step of a valid state leads to a valid state.
pub fn states_stay_valid()
    ensures opens { OpensValid }
    ensures steps { StepsValid }
{}

/// The state that a history leads to is valid.
pub fn histories_are_valid()
    ensures { HistoriesValid }
{}

/// The work that is left under a scope which waits to be passed stands in that scope itself.
pub fn work_is_direct()
    ensures { WorkIsDirect }
{}

/// A front of a legal history is legal, nothing follows the end of all work, and a complete history holds no
/// trap.
pub fn histories_end()
    ensures fronts { FrontsAreLegal }
    ensures over { NothingFollowsOver }
    ensures untrapped { CompleteIsUntrapped }
{}

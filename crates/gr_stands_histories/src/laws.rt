//! The laws, each the contract of a function that does nothing.
ghost use Rattle.gr_stands_histories.specs.Laws as laws;

/// Steps lead on from a world that stands for a plain state; from the start of the machine on they make a legal history,
/// and the world stands for the plain state after it.
pub fn runs_stand()
    ensures opening { laws.OpeningsStandAmongCores }
    ensures steps { laws.StepsLeadOn }
    ensures runs { laws.RunsStand }
{}

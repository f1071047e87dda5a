//! The laws of clocks, each the contract of a function that does nothing.
ghost use Rattle.gr_clocks.specs.Laws as laws;

/// In a global run from clocks at 0, of any machine whose clocks tick: each clock, and the stamp of each packet under
/// way, is at most the number of steps; a clock is at most one above the limit, and a stamp at most the limit; and the
/// steps are at most as many as the cores' clocks below the limit together.
pub fn clocks_count_steps<S, E, P, M>()
    ensures clocks { laws.ClocksCountSteps S E P M }
    ensures stamps { laws.StampsCountSteps S E P M }
    ensures steps { laws.StepsAreFew S E P M }
{}

/// The clocks of the machine tick, so all this holds of its runs.
pub fn runs_are_short()
    ensures ticking { laws.EntriesTickOnce }
    ensures clocks { laws.ClocksAreLow }
    ensures steps { laws.RunsAreShort }
{}

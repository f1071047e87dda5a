//! The law, the contract of a function that does nothing.
ghost use Rattle.gr_known.specs.Known.{HistoriesAreKnown};

/// In a legal history of an accepted program each call is one of an object that the program has, each reducer is one
/// of the eight, and each start names a task of the program.
pub fn histories_are_known()
    ensures { HistoriesAreKnown }
{}

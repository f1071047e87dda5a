//! The laws, each the contract of a function that does nothing.
ghost use Rattle.gr_shares_loops.specs.Laws as laws;

/// A loop of a plain state is opened, an index of it begins, it is passed; and every other entry leaves all loops.
pub fn entries_change_loops()
    ensures waited { laws.LoopsAreWaitedAt }
    ensures others { laws.EntriesLeaveLoops }
    ensures opened { laws.LoopsAreOpened }
    ensures begun { laws.IndicesAreBegun }
    ensures passed { laws.LoopsArePassed }
{}

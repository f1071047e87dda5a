//! The laws, each the contract of a function that does nothing.
ghost use Rattle.gr_shares_ranges.specs.Laws as laws;

/// So it is before the first entry, and each entry keeps it.
pub fn ranges_stand()
    ensures opens { laws.OpeningsHaveRanges }
    ensures steps { laws.StepsKeepRanges }
    ensures entries { laws.EntriesKeepRanges }
{}

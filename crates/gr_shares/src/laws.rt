//! The laws, each the contract of a function that does nothing.
ghost use Rattle.gr_shares.specs.Laws as laws;
ghost use Rattle.gr_shares.specs.ShareActs as acts;

/// An outcome that does what the part asks of it keeps the part, and so do a Ship and a Take.
pub fn shares_are_kept()
    ensures outcomes { acts.SharesAreKept }
    ensures moves { acts.MovesKeepShares }
{}

/// Before its first step the machine has the part.
pub fn openings_have_shares()
    ensures { laws.OpeningsHaveShares }
{}

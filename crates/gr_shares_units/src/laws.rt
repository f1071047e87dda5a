//! The laws, each the contract of a function that does nothing.
ghost use Rattle.gr_shares_units.specs.Laws as laws;

/// An outcome that leaves all chunks and questions keeps the part of work, and so where a task passes its loop.
pub fn shares_stay()
    ensures any { laws.SharesStay }
    ensures others { laws.OthersShare }
    ensures passed { laws.PassesShare }
    ensures singles { laws.SinglesShare }
{}

/// A loop is opened, a chunk is split, and an index of one begins.
pub fn chunks_share()
    ensures opened { laws.LoopsShare }
    ensures split { laws.SplitsShare }
    ensures begun { laws.IndicesShare }
{}

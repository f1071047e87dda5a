//! The law of a chunk's parts, the contract of a function that does nothing.
ghost use Rattle.gr_work.specs.Laws.{KeptIsSmall, PartsCover};

/// Each index of a range lies in exactly one of its parts, and no other index lies in one. The part that is kept
/// has an index, and no more than the grain.
pub fn parts_cover_their_range()
    ensures cover { PartsCover }
    ensures small { KeptIsSmall }
{}

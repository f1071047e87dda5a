//! The law, the contract of a function that does nothing.
ghost use Rattle.gr_shares_chunks.specs.Laws as laws;

/// The chunk that comes next at a core is sound, and is of the loop at which its owner waits.
pub fn chunks_are_told()
    ensures { laws.ChunksAreTold }
{}

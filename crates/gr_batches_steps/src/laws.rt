//! The law, the contract of a function that does nothing.
ghost use Rattle.gr_batches_steps.specs.Laws as laws;

/// Each piece of a step keeps the part of batches.
pub fn pieces_keep_batches()
    ensures { laws.PiecesKeepBatches }
{}

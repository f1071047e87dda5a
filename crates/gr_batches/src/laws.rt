//! The laws, each the contract of a function that does nothing.
ghost use Rattle.gr_batches.specs.BatchActs as acts;
ghost use Rattle.gr_batches.specs.Laws as laws;
ghost use Rattle.gr_batches.specs.Staying as staying;

/// An outcome that does what the part asks of it keeps the part, and so do a Ship and a Take. A core stands as before
/// where its calls stay.
pub fn batches_are_kept()
    ensures outcomes { acts.BatchesAreKept }
    ensures moves { acts.MovesKeepBatches }
    ensures cores { staying.CoresAreKept }
{}

/// Before its first step the machine has the part.
pub fn openings_have_batches()
    ensures { laws.OpeningsHaveBatches }
{}

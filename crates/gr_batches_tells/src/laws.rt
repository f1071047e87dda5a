//! The laws, each the contract of a function that does nothing.
ghost use Rattle.gr_batches_tells.specs.Laws as laws;

/// The calls of a batch that comes back may go on, each in a slot of its own; and what goes off on an object are calls
/// that wait for that.
pub fn batches_tell()
    ensures replies { laws.RepliesTell }
    ensures apart { laws.BatchesAreApart }
    ensures held { laws.HeldTell }
{}

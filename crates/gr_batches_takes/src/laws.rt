//! The law, the contract of a function that does nothing.
ghost use Rattle.gr_batches_takes.specs.Laws as laws;

/// A batch takes effect at its home.
pub fn batches_take_effect()
    ensures { laws.BatchesTakeEffect }
{}

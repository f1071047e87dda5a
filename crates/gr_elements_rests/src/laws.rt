//! The law, the contract of a function that does nothing.
ghost use Rattle.gr_elements_rests.specs.Laws as laws;

/// While turns have no calls, vectors rest.
pub fn vectors_rest()
    ensures { laws.RestsAreFound }
{}

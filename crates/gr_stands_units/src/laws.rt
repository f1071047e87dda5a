//! The laws, each the contract of a function that does nothing.
ghost use Rattle.gr_stands_units.specs.Laws as laws;

/// The first index of a chunk begins; and whatever the unit, taking it up keeps words and calls.
pub fn units_are_taken_up()
    ensures begins { laws.IndicesBegin }
    ensures any { laws.UnitsAreTakenUp }
{}

//! The laws, the contract of a function that does nothing.
ghost use Rattle.gr_fits_objects.specs.Laws as laws;

/// An accepted program has no more objects than there may be, and no object has the heap's number.
pub fn objects_are_few()
    ensures few { laws.ObjectsAreFew }
    ensures heap { laws.HeapsAreApart }
{}

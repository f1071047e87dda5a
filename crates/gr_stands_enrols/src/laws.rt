//! The law, the contract of a function that does nothing.
ghost use Rattle.gr_stands_enrols.specs.Laws as laws;

/// Each task that waited to be counted makes its new one, one after another.
pub fn enrolments_are_served()
    ensures { laws.EnrolmentsAreServed }
{}

//! The law, the contract of a function that does nothing.
ghost use Rattle.gr_elements_plans.specs.Laws as laws;

/// A plan takes each word once, and what it leaves are the words after its calls.
pub fn plans_tell()
    ensures { laws.PlansTell }
{}

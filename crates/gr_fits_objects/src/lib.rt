//! What an accepted program declares: no more objects than there may be, so that the heap's number is that of none.
#![tactic(auto)]

mod laws;

pub use laws::objects_are_few;

//! What a step of the machine made: the pieces that it is made of, with the worlds and the plain states between them, and
//! what holds after it where each piece keeps it.
#![tactic(auto)]

mod laws;

pub use laws::steps_are_made;

//! The machine before its first step, whatever the program: each place of an object has an address of its own, and the
//! world stands for the opening state.
#![tactic(auto)]

mod laws;

pub use laws::{openings_stand, programs_are_sound};

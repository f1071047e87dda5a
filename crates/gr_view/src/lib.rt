//! Views: what a part of a core is as a function of numbers, which the definitions of the core speak of.
#![tactic(auto)]

mod laws;

pub use laws::{places_are_put, puts_are_read};

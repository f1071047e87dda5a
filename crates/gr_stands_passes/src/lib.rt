//! Tasks that pass a scope, cores that leave one, and the end of the program, in a world that stands for a plain state.
#![tactic(auto)]

mod laws;

pub use laws::{leaves_are_served, scopes_are_passed};

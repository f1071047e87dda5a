//! Units of work that come, go, are split and begun, in a world that stands for a plain state: each event keeps the part
//! of scopes.
#![tactic(auto)]

mod laws;

pub use laws::{units_are_taken_up, units_move};

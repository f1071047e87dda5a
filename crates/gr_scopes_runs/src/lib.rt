//! What a Run does to the part of scopes, row by row: the part is kept, for the plain state to which the entries of its
//! marks lead.
#![tactic(auto)]

mod laws;

pub use laws::{tasks_keep_scopes, units_keep_scopes};

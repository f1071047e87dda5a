//! The part of scopes in a run: it opens, and each piece of an event keeps it, for the plain state to which the entries
//! of the piece's marks lead, with names of scopes that may have grown.
#![tactic(auto)]

mod laws;

pub use laws::{askers_call, pieces_keep_scopes, scopes_keep_standing};

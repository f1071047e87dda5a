//! The part of scopes: when the counts and masters of a world of the machine stand for the scopes of a plain state, and
//! what an outcome at a core, a Ship and a Take do to that.
#![tactic(auto)]

mod laws;

pub use laws::{openings_have_scopes, scopes_are_kept};

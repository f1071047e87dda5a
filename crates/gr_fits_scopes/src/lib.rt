//! What is known of scopes in each state of the plain memory that a legal history reaches, and of the work that is left
//! under them.
#![tactic(auto)]

mod laws;

pub use laws::{scopes_are_placed, work_is_done};

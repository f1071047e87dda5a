//! What a core does with a letter of its inbox.
#![tactic(auto)]

mod batches;
mod letters;
mod requests;
mod scopes;
mod steals;

pub use letters::serve;

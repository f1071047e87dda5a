//! What a message, the end of a turn, gifts, a Close and a Steal do to the part of scopes: it is kept, for the plain
//! state to which the entries of the marks lead.
#![tactic(auto)]

mod laws;

pub use laws::{inner_events_keep_scopes, messages_keep_scopes};

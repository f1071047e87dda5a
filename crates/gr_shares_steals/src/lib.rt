//! Questions for work and the units that answer them: each event keeps the part of work, and at the end of each the core
//! has given what it could.
#![tactic(auto)]

mod laws;

pub use laws::{events_share, gifts_share, questions_share};

//! All events keep the part of work: what a Run, a Serve and a Close do first, the end of a turn, gifts, questions for
//! work, and messages that move.
#![tactic(auto)]

mod laws;

pub use laws::{events_keep_work, moves_keep_work};

//! A core in the course of a run: what an event makes of it, outcome by outcome, and its entries in the journal.
#![tactic(auto)]

mod laws;

pub use laws::{events_are_courses, lists_go_one_by_one, outcomes_follow, steps_are_entries};

//! The task of a slot is nowhere else, whatever it waits for, so that no other task is woken in its place.
#![tactic(auto)]

mod laws;

pub use laws::tasks_stand_alone;

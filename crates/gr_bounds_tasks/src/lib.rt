//! The tasks that a core makes and the batches that it sends: their numbers grow by one at most with a step of the machine.
#![tactic(auto)]

mod laws;

pub use laws::tasks_grow;

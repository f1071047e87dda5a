//! The messages that wait on a core to be shipped, by the core that they are for.
#![tactic(auto)]

mod aggregator;
#[cfg(test)]
mod aggregator_tests;
mod buffer;
mod laws;

pub use aggregator::Aggregator;
pub use laws::messages_are_added;

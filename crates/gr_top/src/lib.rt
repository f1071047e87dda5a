//! One command from bytes to bytes.
#![tactic(auto)]

mod answer;
mod call;
mod command;
mod delivery;
mod engine;
#[cfg(test)]
mod gate_tests;
mod laws;
mod reading;
mod replaying;
mod texts;

pub use answer::{Refusal, RunEnd};
pub use call::top;
pub use gr_engine::WorldEnd;
pub use laws::answers_are_exact;

//! Programs of the task language that keep a runtime busy, by kind, size and seed.
#![tactic(auto)]

mod programs;
#[cfg(test)]
mod tests;

pub use programs::{BenchKind, MAX_SIZE, bench};

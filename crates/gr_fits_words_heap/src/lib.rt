//! The addresses of the heap of an accepted program are words.
#![tactic(auto)]

mod laws;

pub use laws::heaps_fit;

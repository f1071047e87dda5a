//! Parsers that look one token ahead, over any kind of token: what they read is spelled so, and they stop at the first fault.
//!
//! The definitions stand in specs/, the lemmas in proofs/.
#![tactic(auto)]

mod laws;

pub use laws::example_is_exact;

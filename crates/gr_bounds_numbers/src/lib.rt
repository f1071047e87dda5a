//! What a core gives numbers to or counts, and what messages in flight tell of that: each grows by one at most with a step
//! of the machine.
#![tactic(auto)]

mod laws;

pub use laws::numbers_grow;

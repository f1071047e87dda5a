//! A batch takes effect at the home of its key: in the history its calls are made there one after another.
#![tactic(auto)]

mod laws;

pub use laws::batches_take_effect;

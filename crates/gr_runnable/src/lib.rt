//! What a text gives that is accepted: a program such as runs of the machine ask for.
#![tactic(auto)]

mod laws;

pub use laws::texts_are_runnable;

//! The end of a turn of a vector, in a world that stands for a plain state: its calls are made, one after another.
#![tactic(auto)]

mod laws;

pub use laws::turns_finish;

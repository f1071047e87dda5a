//! What the entries of a legal history name: objects, reducers and tasks that the program has.
#![tactic(auto)]

mod laws;

pub use laws::histories_are_known;

//! Each piece of a step keeps where the words of vectors are, and behind a message that comes first a turn at its end can be
//! finished.
#![tactic(auto)]

mod laws;

pub use laws::{pieces_keep_elements, turns_are_told};

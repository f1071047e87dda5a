//! The words of vectors in the plain state stay through each piece of a step, but for the end of a turn, whose calls are made on
//! them.
#![tactic(auto)]

mod laws;

pub use laws::pieces_keep_words;

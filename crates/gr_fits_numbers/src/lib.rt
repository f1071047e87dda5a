//! The numbers of a program that a text spells are words.
#![tactic(auto)]

mod laws;

pub use laws::spelled_numbers_fit;

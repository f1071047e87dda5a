//! Where each turn of a vector that is out has no calls, each of its words is at the home of its position.
#![tactic(auto)]

mod laws;

pub use laws::vectors_rest;

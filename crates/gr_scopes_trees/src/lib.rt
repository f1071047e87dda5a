//! What a step of the plain memory does to its tree, which the part of scopes looks at.
#![tactic(auto)]

mod laws;

pub use laws::steps_make_trees;

//! What the cores of a run hold together, read off at its end, is what the plain objects hold.
#![tactic(auto)]

mod laws;

pub use laws::contents_stand;

//! What the part of scopes needs of the part of work: the chunk that comes next may be taken up, and its scope is that of
//! its loop.
#![tactic(auto)]

mod laws;

pub use laws::chunks_are_told;

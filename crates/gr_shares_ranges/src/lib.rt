//! Each loop of a plain state is one at which a task waits, until all its indices have begun.
#![tactic(auto)]

mod laws;

pub use laws::ranges_stand;

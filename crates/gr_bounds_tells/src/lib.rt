//! What bounds tell of runs: no guard of the machine against numbers that wrap drops anything.
#![tactic(auto)]

mod laws;

pub use laws::bounds_open;

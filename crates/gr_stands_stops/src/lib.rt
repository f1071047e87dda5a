//! The stops of cores are what the marks of a run say: which core is trapped, and that only core 0
//! passes the root.
#![tactic(auto)]

mod laws;

pub use laws::stops_tell;

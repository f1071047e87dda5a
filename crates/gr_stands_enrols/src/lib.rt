//! A core that counts in a scope from now on, in a world that stands for a plain state: each task that waited for that makes
//! its new one.
#![tactic(auto)]

mod laws;

pub use laws::enrolments_are_served;

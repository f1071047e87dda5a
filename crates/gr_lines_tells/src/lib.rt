//! What calls that wait on vectors tell the parts of words and of calls.
#![tactic(auto)]

mod laws;

pub use laws::lines_tell;

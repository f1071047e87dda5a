//! What the part of scopes tells at the start of a step: of a task that acts, of a core that leaves a scope, and of the
//! tasks that wait until their core may count.
#![tactic(auto)]

mod laws;

pub use laws::scopes_tell;

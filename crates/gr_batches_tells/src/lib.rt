//! What the part of batches tells the others: of calls that go off, and of those that come back.
#![tactic(auto)]

mod laws;

pub use laws::batches_tell;

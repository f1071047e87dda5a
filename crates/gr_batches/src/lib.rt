//! The part of batches: when the calls that a world of the machine combines, and those that are under way as batches,
//! stand for a plain state; and what an outcome at a core, a Ship and a Take do to that.
#![tactic(auto)]

mod laws;

pub use laws::{batches_are_kept, openings_have_batches};

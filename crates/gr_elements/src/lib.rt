//! The part of elements: where each word of a vector is while a turn puts and gets some, and what an outcome at a core, a
//! Ship and a Take do to that.
#![tactic(auto)]

mod laws;

pub use laws::{elements_are_kept, openings_have_elements};

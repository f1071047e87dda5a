//! The part of work: when the units and the questions for work in a world of the machine stand for the loops of a plain
//! state, and what an outcome at a core, a Ship and a Take do to that.
#![tactic(auto)]

mod laws;

pub use laws::{openings_have_shares, shares_are_kept};

//! The part of turns, of whose turn it is: when the turns of the vectors of a world of the machine are each in one place,
//! and what an outcome at a core, a Ship and a Take do to that.
#![tactic(auto)]

mod laws;

pub use laws::{openings_have_turns, turns_are_kept};

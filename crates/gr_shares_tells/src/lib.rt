//! What the part of work tells the others: which indices a unit may begin, that units come only where they were asked for,
//! and that of a scope of which nothing is counted no index is left. And that no unit is dropped, and no core asked twice.
#![tactic(auto)]

mod laws;

pub use laws::{questions_are_answered, units_act, work_tells};

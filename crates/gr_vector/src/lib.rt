//! Vectors over all cores: the turns of a vector in the order of asking, the words of a vector at one core,
//! the calls that wait for a turn, and what a turn makes of its calls.
#![tactic(auto)]

mod combiner;
mod ends;
mod kind;
mod laws;
mod master;
mod part;
mod planning;
mod shared;
mod turn_plan;

pub use combiner::VecCombiner;
pub use ends::Ends;
pub use laws::{
    groups_are_the_calls, plans_are_the_calls, turn_rows, turns_are_in_order, vector_rows,
};
pub use master::{Granted, VecMaster};
pub use part::VecPart;
pub use planning::plan;
pub use shared::vectors_are_shared;
pub use turn_plan::Plan;

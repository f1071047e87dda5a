//! Run, where no slot is ready: a unit of work is taken up, in a world that stands for a plain state.
#![tactic(auto)]

mod laws;

pub use laws::units_are_taken_up;

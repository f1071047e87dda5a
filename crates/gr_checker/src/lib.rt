//! The checker: it accepts a program in which no condition for a refusal holds, and else finds the first that does.
#![tactic(auto)]

mod calls;
mod checking;
mod earliest;
mod heads;
mod laws;
mod meanings;
mod name_set;
mod scope;
mod uses;
mod walk;

pub use checking::{CheckError, check};
pub use laws::refusals_are_exact;

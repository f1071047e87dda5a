//! Accepted programs: the table of operations, what names mean, and the ten conditions for a refusal.
#![tactic(auto)]

mod accepted;
mod operation;
mod rows;

pub use accepted::Accepted;
pub use operation::{Declared, Operation, operation_of, reducer_name, reducer_of};
pub use rows::{accepted_rows, first_place_rows, refused_rows};

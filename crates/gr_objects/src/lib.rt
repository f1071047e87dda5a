//! What the machine asks of the objects and tasks of a program, answered by its code.
#![tactic(auto)]

mod laws;
mod objects;

pub use laws::batches_are_by_shape;
pub use objects::{address, has_task, is_keyed, is_reducer, named_at, shape};

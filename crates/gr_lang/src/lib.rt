//! What a program means: what its tasks do next, what a call does to one plain memory and replies, and which
//! histories of a run are legal and complete.
#![tactic(auto)]

mod action;
mod effects;
mod laws;
mod lists;
mod parts;
mod step_rows;

pub use action::{Action, Effect, Entry, How, Op, Parts, Reply, TaskId, TrapKind, WaitingCall};
pub use effects::reduced;
pub use laws::{operations_are_their_parts, reducers_are_associative};
pub use lists::{Calls, History, Pairs, Sequence, Words};
pub use parts::op_of;
pub use step_rows::{call_rows, object_rows, scope_rows, seven_rows};

//! The part of work in a run of the machine: it holds before the first step, each piece of an event keeps it, and it tells
//! what steps need.
#![tactic(auto)]

mod laws;

pub use laws::{pieces_keep_work, work_stands};

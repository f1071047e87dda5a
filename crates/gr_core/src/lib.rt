//! A core: each of its events is a step of the machine, and its journal is a local run.
#![tactic(auto)]

mod cores;
mod crossing;
mod making;
mod packets;
mod running;
mod shared;

pub use cores::{Core, Stepped};
pub use shared::cores_are_sent;

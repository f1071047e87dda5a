//! A slice of a core: the events that it makes one after another, each the first in a fixed order that it can make.
#![tactic(auto)]

mod gate;
mod slices;
mod tries;

pub use gate::{Gate, NoGate};
pub use slices::slice;

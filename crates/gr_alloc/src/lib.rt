//! The blocks of the heap: which are live, and where so many free words begin.
#![tactic(auto)]

mod blocks;
mod cuts;
mod holes;
mod nodes;
mod peaks;

pub use blocks::Blocks;

//! The plain memory: words in arrays and the heap, sets, maps and vectors, and what one call does to them.
#![tactic(auto)]

mod contents;
mod memory;
mod parts;
mod things;

pub use contents::{Content, Contents};
pub use memory::Memory;
pub use parts::Keys;
pub use things::Thing;

//! Where the words of the shared memory lie, dealt to the cores in blocks, and the words of one core.
#![tactic(auto)]

mod laws;
mod layout;
mod segment;
mod shared;
mod word;

pub use laws::{addresses_are_dealt, dealt_rows, words_are_called};
pub use layout::{BadLayout, Layout, MAX_BLOCK};
pub use segment::Segment;
pub use shared::segments_are_shared;
pub use word::WordOp;

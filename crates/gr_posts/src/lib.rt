//! The messages at a core: those that have come to it, and those that wait to be shipped to each other
//! core.
#![tactic(auto)]

mod fits;
mod posts;
mod shared;

pub use posts::{Letter, Posts};
pub use shared::posts_are_shared;

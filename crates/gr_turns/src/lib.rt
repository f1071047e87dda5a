//! The vectors at a core: their words, the calls that wait, the turns that the core has, and those that it grants.
#![tactic(auto)]

mod by_number;
mod masters;
mod positions;
mod replying;
mod shared;
mod turn;
mod vector;
mod vectors;

pub use replying::Answers;
pub use shared::turns_are_shared;
pub use turn::Turn;
pub use vector::Vector;
pub use vectors::Vectors;

//! What a turn does.
use gr_lang::{Pairs, Words};

/// What a turn does: the positions at which words are put, those from which words are taken, the pops'
/// before the dequeues', and between which positions the vector's words stand afterwards.
#[derive(Drop)]
pub struct Plan {
    /// Positions with the words that are put there.
    pub puts: Pairs,
    /// Positions from which words are taken.
    pub gets: Words,
    pub head: u64,
    pub tail: u64,
}

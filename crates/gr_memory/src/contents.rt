//! What the objects hold, as lists.
use gr_lang::{Pairs, Sequence, Words};

/// What an object holds.
#[derive(Drop)]
pub enum Content {
    /// The words of an array, by their places.
    Array { words: Words },
    /// The keys of a set, rising.
    Set { keys: Words },
    /// The keys of a map, rising, each with its word.
    Map { pairs: Pairs },
    /// The words of a vector, from the head.
    Vector { words: Words },
}

/// What each object of a program holds but the heap, by the objects' numbers.
pub type Contents = Sequence<Content>;

//! That turns and vectors may be handed to other threads.
use crate::vectors::Vectors;

/// Takes what other threads may own and read.
fn share<T: Send + Sync>(value: &T) {
    let _ = value;
}

/// The vectors at a core, with their turns, may be owned and read by other threads.
pub fn turns_are_shared(vectors: &Vectors) {
    share(vectors);
}

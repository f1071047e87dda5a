//! That the messages at a core may be handed to other threads.
use crate::posts::{Letter, Posts};

/// Takes what other threads may own and read.
fn share<T: Send + Sync>(value: &T) {
    let _ = value;
}

/// A letter and the messages at a core may be owned and read by other threads.
pub fn posts_are_shared(letter: &Letter, posts: &Posts) {
    share(letter);
    share(posts);
}

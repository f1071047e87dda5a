//! That calls and batches may be handed to other threads.
use crate::combining::Combining;

/// Takes what other threads may own and read.
fn share<T: Send + Sync>(value: &T) {
    let _ = value;
}

/// The calls and batches of a core may be owned and read by other threads.
pub fn combining_is_shared(combining: &Combining) {
    share(combining);
}

//! That combiners, batches and wakes may be handed to other threads.
use crate::combiner::{Batches, Combiner};
use crate::wakes::Wakes;

/// Takes what other threads may own and read.
fn share<T: Send + Sync>(value: &T) {
    let _ = value;
}

/// A combiner, its batches and their wakes may be owned and read by other threads: a call of this function is
/// proved.
pub fn combiners_are_shared(combiner: &Combiner, batches: &Batches, wakes: &Wakes) {
    share(combiner);
    share(batches);
    share(wakes);
}

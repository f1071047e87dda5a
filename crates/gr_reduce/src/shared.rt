//! That the reducers may be handed to other threads.
use crate::reducers::Reducers;

/// Takes what other threads may own and read.
fn share<T: Send + Sync>(value: &T) {
    let _ = value;
}

/// The reducers may be owned and read by other threads: a call of this function is proved.
pub fn reducers_are_shared(reducers: &Reducers) {
    share(reducers);
}

//! That what lies at a core may be handed to other threads.
use crate::store::Store;

/// Takes what other threads may own and read.
fn share<T: Send + Sync>(value: &T) {
    let _ = value;
}

/// A store may be owned and read by other threads: a call of this function is proved.
pub fn stores_are_shared(store: &Store) {
    share(store);
}

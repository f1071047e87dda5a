//! That the state of a core may be handed to other threads.
use crate::state::State;

/// Takes what other threads may own and read.
fn share<T: Send + Sync>(value: &T) {
    let _ = value;
}

/// The state of a core may be owned and read by other threads.
pub fn states_are_shared(state: &State) {
    share(state);
}

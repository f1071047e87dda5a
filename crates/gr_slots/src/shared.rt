//! That tasks in slots may be handed to other threads.
use crate::task::Task;

/// Takes what other threads may own and read.
fn share<T: Send + Sync>(value: &T) {
    let _ = value;
}

/// A task in a slot may be owned and read by other threads.
pub fn tasks_are_shared(task: &Task) {
    share(task);
}

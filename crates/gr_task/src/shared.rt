//! That suspended tasks may be handed to other threads.
use crate::task::TaskState;

/// Takes what other threads may own and read.
fn share<T: Send + Sync>(value: &T) {
    let _ = value;
}

/// A task may be owned and read by other threads: a call of this function is proved.
pub fn tasks_are_shared(task: &TaskState) {
    share(task);
}

//! That a core may be handed to another thread.
use crate::cores::Core;

/// Takes what may go to another thread.
fn send<T: Send>(value: &T) {
    let _ = value;
}

/// A core may go to another thread.
pub fn cores_are_sent(core: &Core) {
    send(core);
}

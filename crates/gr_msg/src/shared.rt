//! That a packet may be handed to other threads.
use crate::packet::Packet;

/// Takes what other threads may own and read.
fn share<T: Send + Sync>(value: &T) {
    let _ = value;
}

/// A packet may be owned and read by other threads.
pub fn packets_are_shared(packet: &Packet) {
    share(packet);
}

//! What packets say.
use crate::message::Messages;

/// The greatest clock of a packet.
pub const MAX_CLOCK: u64 = 1 << 40;

/// The most messages of a packet. The least is 1.
pub const MAX_MESSAGES: usize = 256;

/// What a packet says: the clock of the event that shipped it, and its messages in their order.
#[derive(Drop)]
pub struct Opened {
    pub clock: u64,
    pub messages: Messages,
}

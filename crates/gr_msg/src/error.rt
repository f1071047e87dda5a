//! Why bytes don't open.
use thiserror::Error;

/// Why bytes don't open.
#[derive(Debug, Drop, Error)]
pub enum DecodeError {
    /// The bytes aren't one whole packet. From the left, this is the place of the first byte of the first number
    /// that is cut off or out of its range, or else the first byte behind the packet.
    #[error("not a packet")]
    NotAPacket { at: u64 },
    /// There is no memory for the messages.
    #[error("out of memory")]
    OutOfMemory,
}

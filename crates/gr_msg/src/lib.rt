//! The messages that cores send each other, and packets of them as bytes.
#![tactic(auto)]

mod error;
mod kinds;
mod laws;
mod message;
mod opened;
mod packet;
mod parts;
mod shared;
mod units;
mod writing;

pub use error::DecodeError;
pub use laws::{packet_rows, packets_are_exact};
pub use message::{Messages, Msg, ScopeId, Unit};
pub use opened::{MAX_CLOCK, MAX_MESSAGES, Opened};
pub use packet::{Packet, decode, encode, encode_slices};
pub use shared::packets_are_shared;

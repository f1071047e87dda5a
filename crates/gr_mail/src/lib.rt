//! The rings of packets between each two cores, and the ends of rings that a core has.
#![tactic(auto)]

mod boxes;
mod laws;
mod mail;
mod meeting;
#[cfg(test)]
mod ring_tests;

pub use boxes::mailboxes;
pub use laws::{mails_stay_joined, packets_keep_their_order};
pub use mail::{Mail, RING_PACKETS, Sent};
pub use meeting::meet;

//! What is left of a core when a run has stopped.
use crate::counts::Counts;
use crate::journal::{Journal, Marks};
use gr_lang::{Sequence, Words};
use gr_msg::Packet;

/// A list of packets.
pub type Packets = Sequence<Packet>;

/// A list of packets for each core, in the order of the cores.
pub type PacketLists = Sequence<Packets>;

/// What is left of a core: its number and clock, what it did and marked, and the packets that it shipped and took.
#[derive(Drop)]
pub struct CoreEnd {
    pub core: u64,
    pub clock: u64,
    /// The slot of main at core 0, and 0 at every other core.
    pub first: u64,
    pub journal: Journal,
    /// The packets that it shipped to each core.
    pub sent: PacketLists,
    /// The packets that it took from each core.
    pub received: PacketLists,
    pub marks: Marks,
    pub counts: Counts,
    /// How many packets from each core were still under way.
    pub left: Words,
}

/// The ends of all cores, in the order of the cores.
pub type CoreEnds = Sequence<CoreEnd>;

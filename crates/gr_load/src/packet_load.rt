//! A load of messages that are packed.
ghost use Rattle.std.specs.Prelude.{◌≡◌};
ghost use Rattle.gr_agg.specs.Aggregates.{waiting_in};

use gr_agg::Aggregator;
use gr_msg::{MAX_MESSAGES, Msg, decode};
use std::alloc::{AllocError, Global};

/// The messages that wait for each of two cores.
#[derive(Drop)]
struct Buffers {
    waiting: Aggregator,
    ghost cores: { (waiting_in waiting).cores ≡ 2 },
}

impl Buffers {
    fn new(alloc: Global, limit: u64) -> Result<Buffers, AllocError> {
        let most = MAX_MESSAGES as u64;
        let waiting = Aggregator::new(alloc, 2, limit.clamp(1, most))?;
        Ok(Buffers { waiting })
    }

    fn add(&mut self, vector: u64) -> Result<(), AllocError> {
        self.waiting.add(
            1,
            Msg::Turn {
                vector: vector % 64,
            },
        )
    }

    /// How many messages the next packet has, which is shipped; none where none is ready.
    fn ship(&mut self, alloc: Global, clock: u64, idle: bool) -> Result<u64, AllocError> {
        if !self.waiting.ready(1, idle) {
            return Ok(0);
        }
        let packet = self.waiting.front(alloc, 1, clock % 1000)?;
        let opened = decode(alloc, packet.bytes());
        self.waiting.drop_front(1);
        match opened {
            Ok(opened) => Ok(opened.messages.len() as u64),
            Err(_) => Err(AllocError),
        }
    }
}

/// So many messages are added, packed as soon as a packet of this limit is full, and decoded.
pub fn packets(alloc: Global, count: u64, limit: u64) -> Result<String, AllocError> {
    let mut buffers = Buffers::new(alloc, limit)?;
    let mut packets = 0u64;
    let mut messages = 0u64;
    for at in 0..count {
        buffers.add(at)?;
        let shipped = buffers.ship(alloc, at, false)?;
        if shipped > 0 {
            packets = packets.wrapping_add(1);
            messages = messages.wrapping_add(shipped);
        }
    }
    let rest = buffers.ship(alloc, 0, true)?;
    format!(in alloc; "{messages} messages in {packets} packets, {rest} in the last")
}

//! The messages that wait for each core.
ghost use Rattle.std.specs.Prelude.{◌≡◌, ◌<◌, ◌≤◌, [], IfOk, OnErr, OnOk, drop, length, true};
ghost use Rattle.gr_msg.specs.Ranges.{Fits};
ghost use Rattle.gr_view.specs.Places.{at_place, put};
ghost use Rattle.gr_agg.specs.Aggregates.{waiting_in};
ghost use Rattle.gr_agg.specs.Buffers.{add_last, is_ready, next_messages, no_messages, with_message, without_next};

use crate::buffer::Buffer;
use gr_msg::{MAX_CLOCK, MAX_MESSAGES, Msg, Packet};
use gr_syntax::MAX_CORES;
use std::alloc::{AllocError, Global};
use std::marker::Model;

/// The messages that wait on a core to be shipped, and the most messages of a packet.
#[derive(Drop)]
pub struct Aggregator {
    limit: usize,
    buffers: Vec<Buffer>,
}

impl Model for Aggregator {
    ghost use Rattle.std.specs.Prelude.{◌≤◌};
    ghost use Rattle.gr_msg.specs.declared.opened.TheConstants.{MAX_MESSAGES};
    ghost use Rattle.gr_agg.specs.Aggregates.{Lists};

    ghost Value = { Lists };

    ghost view = { λ kept. record { limit = kept.limit; lists = kept.buffers.items } };

    ghost invariant = { λ kept. (1 ≤ kept.limit) × (kept.limit ≤ MAX_MESSAGES) };
}

/// So many buffers with no messages.
fn empty_buffers(alloc: Global, count: usize) -> Result<Vec<Buffer>, AllocError>
    ensures len { IfOk result (λ buffers. length buffers.items ≡ count) }
    ensures empty { IfOk result (λ buffers. at_place [] buffers.items ≡ (λ dest. [])) }
{
    let mut buffers = Vec::new(alloc);
    'buffers: for _ in 0..count {
        buffers.push(Buffer::new(alloc))?;
    }
    Ok(buffers)
}

#[tactic(auto, using(gr_view::proofs::Puts::at_lists))]
fn add_at(buffers: &mut [Buffer], dest: usize, message: Msg) -> Result<(), AllocError>
    requires place { dest < length buffers.old }
    requires fits { Fits message }
    ensures ok { OnOk result (at_place [] buffers.new
        ≡ put (at_place [] buffers.old) dest (add_last (at_place [] buffers.old dest) message)) }
    ensures err { OnErr result (buffers.new ≡ buffers.old) }
{
    buffers[dest].add(message)
}

#[tactic(auto, using(gr_view::proofs::Puts::at_lists))]
fn drop_at(buffers: &mut [Buffer], dest: usize, limit: usize)
    requires { dest < length buffers.old }
    ensures { at_place [] buffers.new
        ≡ put (at_place [] buffers.old) dest (drop limit (at_place [] buffers.old dest)) }
{
    buffers[dest].drop_front(limit);
}

impl Aggregator {
    /// No messages for any of 1 to 16 cores, and packets of at most `limit` messages, which is 1 to 256.
    pub fn new(alloc: Global, cores: u64, limit: u64) -> Result<Aggregator, AllocError>
        requires cores { (1 ≤ cores) × (cores ≤ MAX_CORES) }
        requires limit { (1 ≤ limit) × (limit ≤ MAX_MESSAGES) }
        ensures { IfOk result (λ kept. waiting_in kept ≡ no_messages cores limit) }
    {
        let buffers = empty_buffers(alloc, cores as usize)?;
        Ok(Aggregator {
            limit: limit as usize,
            buffers,
        })
    }

    /// One more message for a core, whose fields are in their ranges. A Complete of the scope of one that is last is
    /// added to it, where the sum fits a word. Unchanged where there is no memory.
    pub fn add(&mut self, dest: u64, msg: Msg) -> Result<(), AllocError>
        requires core { dest < (waiting_in self.old).cores }
        requires fits { Fits msg }
        ensures ok { OnOk result (waiting_in self.new ≡ with_message (waiting_in self.old) dest msg) }
        ensures err { OnErr result (waiting_in self.new ≡ waiting_in self.old) }
    {
        add_at(&mut self.buffers, dest as usize, msg)
    }

    /// How many messages wait for a core; 0 where there is no such core.
    #[tactic(auto, using(gr_view::proofs::Puts::at_lists))]
    pub fn waiting(&self, dest: u64) -> u64
        ensures { result ≡ length ((waiting_in self.now).messages dest) }
    {
        match self.buffers.get(dest as usize) {
            Some(buffer) => buffer.len() as u64,
            None => 0,
        }
    }

    /// Whether messages are to be shipped to a core: as many wait as a packet may have, or any while the core has
    /// nothing to do.
    #[tactic(auto, using(gr_view::proofs::Puts::at_lists))]
    pub fn ready(&self, dest: u64, idle: bool) -> bool
        requires { dest < (waiting_in self.now).cores }
        ensures ready { result ≡ is_ready (waiting_in self.now) dest idle }
        ensures some { result ≡ true → 0 < length ((waiting_in self.now).messages dest) }
    {
        let count = self.buffers[dest as usize].len();
        self.limit <= count || idle && 0 < count
    }

    /// A packet of the oldest messages for a core, as many as it may have, with this clock.
    #[tactic(auto, using(gr_view::proofs::Puts::at_lists))]
    pub fn front(&self, alloc: Global, dest: u64, clock: u64) -> Result<Packet, AllocError>
        requires core { dest < (waiting_in self.now).cores }
        requires some { 0 < length ((waiting_in self.now).messages dest) }
        requires clock { clock ≤ MAX_CLOCK }
        ensures { IfOk result (λ packet. packet
            ≡ record { clock = clock; messages = next_messages (waiting_in self.now) dest }) }
    {
        self.buffers[dest as usize].front(alloc, clock, self.limit)
    }

    /// Removes the messages of that packet. It takes no memory.
    pub fn drop_front(&mut self, dest: u64)
        requires core { dest < (waiting_in self.old).cores }
        requires some { 0 < length ((waiting_in self.old).messages dest) }
        ensures { waiting_in self.new ≡ without_next (waiting_in self.old) dest }
    {
        drop_at(&mut self.buffers, dest as usize, self.limit);
    }
}

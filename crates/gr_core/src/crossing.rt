//! The two events by which packets cross between cores: Take and Ship.
ghost use Rattle.std.specs.Prelude.{◌≡◌, ◌<◌, IfOk, OnOk, length, true};
ghost use Rattle.gr_merge.specs.Machines.{with_last};
ghost use Rattle.gr_machine.specs.Enabled.{enabled};
ghost use Rattle.gr_machine.specs.Events.{packet_to, ticked};
ghost use Rattle.gr_machine.specs.declared.event.Event.TheVariants as event;
ghost use Rattle.gr_core.specs.CoreView.{run_in};
ghost use Rattle.gr_core.specs.EntryWords.{delivered_to, unloaded, with_packet};
ghost use Rattle.gr_core.specs.Runs.{Made};

use crate::packets::{keep, open};
use crate::running::Running;
use gr_lang::Words;
use gr_machine::Event;
use gr_msg::{Opened, Packet};
use gr_state::{counted, one_more};
use std::alloc::AllocError;

impl<'a> Running<'a> {
    /// The messages of a packet go last into the inbox.
    fn deliver(&mut self, from: u64, packet: &Packet) -> Result<(), AllocError>
        ensures { OnOk result (run_in self.new ≡ delivered_to (run_in self.old) from packet.now) }
    {
        let Opened { messages, .. } = open(self.state.alloc, packet)?;
        self.state.posts.deliver(from, messages)
    }

    /// A packet that another core has shipped is taken.
    #[tactic(auto, using(crate::proofs::Crossings::crossing_events))]
    pub fn take(&mut self, from: u64, packet: Packet) -> Result<(), AllocError>
        requires { let s = (run_in self.old).seen in
            enabled s.machine s.me s.core (event.Take from) ≡ true }
        ensures made { OnOk result (Made (run_in self.old) (event.Take from) (run_in self.new)) }
        ensures received { OnOk result ((run_in self.new).received
            ≡ with_last (run_in self.old).received from packet) }
        ensures sent { OnOk result ((run_in self.new).sent ≡ (run_in self.old).sent) }
    {
        self.tick(self.state.clock.max(packet.clock()))?;
        self.deliver(from, &packet)?;
        keep(&mut self.received, from, packet)?;
        self.note(Event::Take { from }, Words::new(self.state.alloc))
    }

    /// The packet that goes off to another core next, with the clock of its event.
    #[tactic(auto, using(crate::proofs::Crossings::when_shipped))]
    pub fn pack(&self, dest: u64) -> Result<Packet, AllocError>
        requires { let s = (run_in self.now).seen in
            enabled s.machine s.me s.core (event.Ship dest) ≡ true }
        ensures { IfOk result (λ packet. let s = (run_in self.now).seen in packet
            ≡ packet_to s.machine (ticked s.core s.core.clock) dest) }
    {
        let _ = self.state.posts.setup();
        self.state
            .posts
            .front(self.state.alloc, dest, self.state.clock + 1)
    }

    /// A packet of so many messages more.
    fn count_packet(&mut self, count: u64) -> Result<(), AllocError>
        ensures { OnOk result (run_in self.new ≡ with_packet (run_in self.old) count) }
    {
        let done = self.state.done;
        let messages = done.messages.checked_add(count).ok_or(AllocError)?;
        let packets = one_more(done.packets)?;
        let is_short = count < self.state.posts.setup().limit;
        let short = counted(done.short, is_short)?;
        self.state.done.messages = messages;
        self.state.done.packets = packets;
        self.state.done.short = short;
        Ok(())
    }

    /// The messages of the next packet to another core have gone off.
    #[tactic(auto, using(crate::proofs::Crossings::when_shipped))]
    fn unload(&mut self, dest: u64)
        requires core { dest < (run_in self.old).seen.machine.setup.cores }
        requires some { 0 < length ((run_in self.old).seen.core.buffers dest) }
        ensures { run_in self.new ≡ unloaded (run_in self.old) dest }
    {
        self.state.posts.ship(dest);
    }

    /// That packet has gone off.
    #[tactic(auto, using(crate::proofs::Crossings::crossing_events))]
    pub fn ship(&mut self, dest: u64, packet: Packet) -> Result<(), AllocError>
        requires enabled { let s = (run_in self.old).seen in
            enabled s.machine s.me s.core (event.Ship dest) ≡ true }
        requires packet { let s = (run_in self.old).seen in packet
            ≡ packet_to s.machine (ticked s.core s.core.clock) dest }
        ensures made { OnOk result (Made (run_in self.old) (event.Ship dest) (run_in self.new)) }
        ensures received { OnOk result ((run_in self.new).received ≡ (run_in self.old).received) }
        ensures sent { OnOk result ((run_in self.new).sent
            ≡ with_last (run_in self.old).sent dest packet) }
    {
        let setup = self.state.posts.setup();
        let count = setup.limit.min(self.state.posts.waiting(dest));
        self.count_packet(count)?;
        self.tick(self.state.clock)?;
        self.unload(dest);
        keep(&mut self.sent, dest, packet)?;
        self.note(Event::Ship { dest }, Words::new(self.state.alloc))
    }
}

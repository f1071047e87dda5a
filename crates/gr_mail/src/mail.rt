//! The mail of a core.
ghost use Rattle.std.specs.Prelude.{◌≡◌, ◌<◌, None, length, vec_len};
ghost use Rattle.gr_view.specs.Places.{at_place};
ghost use Rattle.gr_mail.specs.Ends.{known_on};
ghost use Rattle.gr_mail.specs.EndsView.{AreEnds, HaveRoom};

use gr_msg::Packet;
use rtrb::{Consumer, Producer, PushError};

/// The packets that a ring has room for.
pub const RING_PACKETS: usize = 16;

/// What became of a packet that was to be sent.
#[derive(Drop)]
pub enum Sent {
    /// It is in the ring.
    Taken,
    /// There was no room for it, and nothing was sent.
    Back { packet: Packet },
}

/// The ends of rings that one core has: one at which it sends to each other core, and one at which it receives.
#[derive(Drop)]
pub struct Mail {
    pub(crate) owner: usize,
    pub(crate) outs: Vec<Option<Producer<Packet>>>,
    pub(crate) ins: Vec<Option<Consumer<Packet>>>,
    ghost cores: { (vec_len ins ≡ vec_len outs) × (owner < vec_len outs) },
    ghost sends: { AreEnds (vec_len outs) owner outs.items },
    ghost receives: { AreEnds (vec_len outs) owner ins.items },
    ghost rooms: { HaveRoom outs.items },
}

/// How many packets are known to be in the ring from a core; 0 where there is no ring.
#[tactic(auto, using(gr_view::proofs::Puts::at_lists))]
fn known_at(ins: &[Option<Consumer<Packet>>], from: usize) -> usize
    ensures { result ≡ length (known_on (at_place None ins.now from)) }
{
    match ins.get(from) {
        Some(Some(consumer)) => consumer.cached_slots(),
        _ => 0,
    }
}

impl Mail {
    ghost use Rattle.std.specs.Prelude.{◌≡◌, ◌≢◌, ◌+◌, ◌<◌, ◌≤◌, ◌++◌, ◌∷◌, [], ℕ, IfNone, IfSome, length, option_to_list};
    ghost use Rattle.gr_view.specs.Places.{put};
    ghost use Rattle.gr_mail.specs.Rings.{IsOther, SameReceived, SameRings, SameSent, free_to, known_from, received_from, sent_to};
    ghost use Rattle.gr_mail.specs.Answers.{IsBack, IsTaken, after_sending};
    ghost use mathlib.Core.List.{IsPrefix};

    /// Sends a packet to another core. It comes back, and nothing is sent, only where no slot of the ring is known
    /// to be free.
    pub fn send(&mut self, dest: u64, packet: Packet) -> Sent
        requires { IsOther self.old dest }
        ensures rings { SameRings self.old self.new }
        ensures received { SameReceived self.old self.new }
        ensures sent { sent_to self.new
            ≡ put (sent_to self.old) dest (after_sending result packet (sent_to self.old dest)) }
        ensures free { free_to self.new ≡ put (free_to self.old) dest (free_to self.new dest) }
        ensures used { IsTaken result → free_to self.old dest ≤ free_to self.new dest + 1 }
        ensures back { IsBack result (λ returned. returned ≡ packet) }
        ensures full { IsBack result (λ _.
            (free_to self.old dest ≡ 0) × (free_to self.new dest ≡ 0)) }
    {
        match self.outs[dest as usize].as_mut() {
            None => unreachable!(),
            Some(producer) => match producer.push(packet) {
                Ok(()) => Sent::Taken,
                Err(PushError::Full(packet)) => Sent::Back { packet },
            },
        }
    }

    /// Takes the next packet of another core, none only where no packet is known to be in the ring.
    pub fn take(&mut self, from: u64) -> Option<Packet>
        requires { IsOther self.old from }
        ensures rings { SameRings self.old self.new }
        ensures sent { SameSent self.old self.new }
        ensures received { received_from self.new
            ≡ put (received_from self.old) from (received_from self.old from ++ option_to_list result) }
        ensures known { known_from self.new ≡ put (known_from self.old) from (known_from self.new from) }
        ensures next { IfSome result (λ packet.
            IsPrefix (known_from self.old from) (packet ∷ known_from self.new from)) }
        ensures none { IfNone result ((known_from self.old from ≡ []) × (known_from self.new from ≡ [])) }
    {
        match self.ins[from as usize].as_mut() {
            None => unreachable!(),
            Some(consumer) => match consumer.pop() {
                Ok(packet) => Some(packet),
                Err(_) => None,
            },
        }
    }

    /// How many packets are known to be in the ring from a core; 0 where there is no ring.
    pub fn known(&self, from: u64) -> usize
        ensures { result ≡ length (known_from self.now from) }
    {
        known_at(&self.ins, from as usize)
    }
}

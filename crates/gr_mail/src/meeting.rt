//! Two cores that meet: both ends of the rings between them are at hand.
ghost use Rattle.std.specs.Prelude.{◌≡◌, ◌≢◌, IsOk};
ghost use Rattle.rtrb.specs.Ring.{ConsumerLooked, IsPair, ProducerLooked, known_free, known_items, producer_capacity, received, sent};
ghost use Rattle.std.specs.Prelude.{◌+◌, ◌++◌, ◌≤◌, length};
ghost use Rattle.gr_mail.specs.Rings.{AreJoined, HaveMet, LookedAt, RingFrom, SameReceived, SameSent, cores, owner};

use crate::mail::Mail;
use gr_msg::Packet;
use rtrb::{Consumer, Producer};
use std::alloc::AllocError;

/// Looks at a ring at both ends. The sending end looks first, so each slot that holds no packet is known to be free.
fn look(producer: &mut Producer<Packet>, consumer: &mut Consumer<Packet>)
    requires { IsPair producer.old consumer.old }
    ensures producer { ProducerLooked producer.old producer.new }
    ensures consumer { ConsumerLooked consumer.old consumer.new }
    ensures known { received consumer.new ++ known_items consumer.new ≡ sent producer.new }
    ensures free { producer_capacity producer.old ≤ known_free producer.new + length (known_items consumer.new) }
{
    producer.slots_beside(consumer);
    consumer.slots_beside(producer);
}

/// Looks at the ring from one core to another.
fn meet_ring(one: &mut Mail, other: &mut Mail)
    requires differ { owner one.old ≢ owner other.old }
    requires cores { cores one.old ≡ cores other.old }
    requires ring { RingFrom one.old other.old }
    ensures one { LookedAt (owner other.old) one.old one.new }
    ensures other { LookedAt (owner one.old) other.old other.new }
    ensures received { SameReceived one.old one.new }
    ensures sent { SameSent other.old other.new }
    ensures met { HaveMet one.new other.new }
{
    let here = one.owner;
    let there = other.owner;
    match one.outs[there].as_mut() {
        None => unreachable!(),
        Some(producer) => match other.ins[here].as_mut() {
            None => unreachable!(),
            Some(consumer) => look(producer, consumer),
        },
    }
}

/// Looks at the two rings between two cores of the same mailboxes. All packets in them are known afterwards, and so
/// is each slot that holds none. It takes no memory.
pub fn meet(one: &mut Mail, other: &mut Mail) -> Result<(), AllocError>
    requires { AreJoined one.old other.old }
    ensures ok { IsOk result }
    ensures one { LookedAt (owner other.old) one.old one.new }
    ensures other { LookedAt (owner one.old) other.old other.new }
    ensures there { HaveMet one.new other.new }
    ensures back { HaveMet other.new one.new }
{
    meet_ring(one, other);
    meet_ring(other, one);
    Ok(())
}

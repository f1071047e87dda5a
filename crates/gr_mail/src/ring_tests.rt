// What no clause says: that the rings are made where there is memory, that a ring has room for 16 packets, and that
// mails may move to other threads.
ghost use Rattle.std.specs.Prelude.{◌≡◌};
ghost use Rattle.gr_mail.specs.Boxes.{AreMailboxes};
ghost use Rattle.gr_mail.specs.Rings.{AreJoined, IsOther, SameRings, cores, owner};

use crate::boxes::mailboxes;
use crate::mail::{Mail, Sent};
use crate::meeting::meet;
use gr_msg::{Messages, Msg, Packet, encode};
use std::alloc::{AllocError, Global};
use std::test::Fail;

fn may_move<T: Send>(value: &T) {
    let _ = value;
}

fn packet(alloc: Global) -> Result<Packet, AllocError> {
    let mut messages = Messages::new(alloc);
    messages.push(Msg::StealAsk)?;
    let packet = encode(alloc, 5, &messages)?;
    Ok(packet)
}

fn is_taken(alloc: Global, mail: &mut Mail, dest: u64) -> Result<bool, AllocError>
    requires { IsOther mail.old dest }
    ensures { SameRings mail.old mail.new }
{
    let packet = packet(alloc)?;
    Ok(matches!(mail.send(dest, packet), Sent::Taken))
}

/// How many of twenty packets are taken.
#[tactic(auto, using(crate::proofs::Mails::after_calls))]
fn room(alloc: Global, mail: &mut Mail, dest: u64) -> Result<u64, AllocError>
    requires { IsOther mail.old dest }
    ensures { SameRings mail.old mail.new }
{
    let mut count = 0;
    'packets: for _ in 0..20u64 {
        if is_taken(alloc, mail, dest)? {
            count += 1;
        }
    }
    Ok(count)
}

fn both(mails: Vec<Mail>) -> (Mail, Mail)
    requires { AreMailboxes 2 mails.items }
    ensures joined { AreJoined result.0 result.1 }
    ensures owners { (owner result.0 ≡ 0) × (owner result.1 ≡ 1) × (cores result.0 ≡ 2) }
{
    let mut mails = mails;
    let other = mails.pop();
    let one = mails.pop();
    match (one, other) {
        (Some(one), Some(other)) => (one, other),
        _ => unreachable!(),
    }
}

#[test]
#[tactic(auto, using(crate::proofs::Mails::after_calls))]
fn a_full_ring_has_room_after_a_meeting(rt: HostRuntime) -> Result<(), Fail> {
    let mails = mailboxes(rt.alloc(), 2)?;
    may_move(&mails);
    let (mut one, mut other) = both(mails);
    meet(&mut one, &mut other)?;
    assert!(rt; room(rt.alloc(), &mut one, 1)? == 16);
    assert!(rt; other.take(0).is_some());
    meet(&mut one, &mut other)?;
    assert!(rt; room(rt.alloc(), &mut one, 1)? == 1);
    Ok(())
}

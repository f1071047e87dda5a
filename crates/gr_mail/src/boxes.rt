//! The mails of all cores, with a ring between each two of them.
ghost use Rattle.std.specs.Prelude.{◌≡◌, ◌≤◌, IfOk, OnOk, length, vec_len};
ghost use Rattle.gr_mail.specs.Boxes.{AreMailboxes};
ghost use Rattle.gr_mail.specs.BoxesView.{AreAssembled, AreDealt, AreEndsOfMails, AreGrid, AreRow};
ghost use Rattle.gr_mail.specs.EndsView.{IsBetween, IsFresh};

use crate::mail::{Mail, RING_PACKETS};
use gr_msg::Packet;
use gr_syntax::MAX_CORES;
use rtrb::{Consumer, Producer, RingBuffer};
use std::alloc::{AllocError, Global};

/// The sending ends of a core, by the receiver.
type Outs = Vec<Option<Producer<Packet>>>;

/// The receiving ends of a core, by the sender.
type Ins = Vec<Option<Consumer<Packet>>>;

/// The two ends of a new ring.
fn ring(alloc: Global) -> Result<(Producer<Packet>, Consumer<Packet>), AllocError>
    ensures { IfOk result (λ ends. IsFresh ends.0 ends.1) }
{
    RingBuffer::new(alloc, RING_PACKETS)
}

#[tactic(auto, using(crate::proofs::Grids::no_ring, crate::proofs::Grids::a_ring))]
/// The two ends between one core and another, none between a core and itself.
fn between(
    alloc: Global,
    from: usize,
    to: usize,
) -> Result<(Option<Producer<Packet>>, Option<Consumer<Packet>>), AllocError>
    ensures { IfOk result (λ ends. IsBetween from to ends.0 ends.1) }
{
    if from == to {
        return Ok((None, None));
    }
    let (producer, consumer) = ring(alloc)?;
    Ok((Some(producer), Some(consumer)))
}

/// The ends of all rings from one core.
fn row(alloc: Global, cores: usize, from: usize) -> Result<(Outs, Ins), AllocError>
    ensures { IfOk result (λ ends. AreRow from cores ends.0.items ends.1.items) }
{
    let mut outs = Vec::new(alloc);
    let mut ins = Vec::new(alloc);
    for to in 0..cores {
        let (producer, consumer) = between(alloc, from, to)?;
        outs.push(producer)?;
        ins.push(consumer)?;
    }
    Ok((outs, ins))
}

/// Gives each core its end of the rings from one core.
fn deal(all: &mut Vec<Ins>, ends: Ins) -> Result<(), AllocError>
    requires { vec_len all.old ≡ vec_len ends }
    ensures { OnOk result (AreDealt 0 (length ends.items) all.old.items ends.items all.new.items) }
{
    let mut ends = ends;
    while let Some(end) = ends.pop() {
        all[ends.len()].push(end)?;
    }
    Ok(())
}

/// The ends of all rings, by sender and by receiver.
fn grid(alloc: Global, cores: usize) -> Result<(Vec<Outs>, Vec<Ins>), AllocError>
    ensures { IfOk result (λ ends. AreGrid cores cores ends.0.items ends.1.items) }
{
    let mut ins = Vec::new(alloc);
    for _ in 0..cores {
        ins.push(Vec::new(alloc))?;
    }
    let mut outs = Vec::new(alloc);
    for from in 0..cores {
        let (ours, theirs) = row(alloc, cores, from)?;
        outs.push(ours)?;
        deal(&mut ins, theirs)?;
    }
    Ok((outs, ins))
}

/// The mails of the cores with these ends, the first core's first.
fn assemble(
    alloc: Global,
    cores: usize,
    outs: Vec<Outs>,
    ins: Vec<Ins>,
) -> Result<Vec<Mail>, AllocError>
    requires { AreEndsOfMails cores outs.items ins.items }
    ensures { IfOk result (λ mails. AreAssembled outs.items ins.items mails.items) }
{
    let mut outs = outs;
    let mut ins = ins;
    let Some(to) = outs.pop() else {
        return Ok(Vec::new(alloc));
    };
    let Some(from) = ins.pop() else {
        return Ok(Vec::new(alloc));
    };
    let owner = outs.len();
    let mut mails = assemble(alloc, cores, outs, ins)?;
    mails.push(Mail {
        owner,
        outs: to,
        ins: from,
    })?;
    Ok(mails)
}

/// The mails of 1 to 16 cores, with a new ring of 16 packets from each core to each other. All later calls take no
/// memory.
pub fn mailboxes(alloc: Global, cores: u64) -> Result<Vec<Mail>, AllocError>
    requires { (1 ≤ cores) × (cores ≤ MAX_CORES) }
    ensures { IfOk result (λ mails. AreMailboxes cores mails.items) }
{
    let cores = cores as usize;
    let (outs, ins) = grid(alloc, cores)?;
    let mails = assemble(alloc, cores, outs, ins)?;
    Ok(mails)
}

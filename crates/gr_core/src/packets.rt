//! The packets that a core took from each core, or shipped to each.
ghost use Rattle.std.specs.Prelude.{◌≡◌, [], IfOk, OnOk, length};
ghost use Rattle.gr_view.specs.Places.{at_place};
ghost use Rattle.gr_merge.specs.Machines.{with_last};

use gr_machine::Packets;
use gr_msg::{Opened, Packet, decode};
use std::alloc::{AllocError, Global};

/// No packets of so many cores.
pub fn no_packets(alloc: Global, cores: u64) -> Result<Vec<Packets>, AllocError>
    ensures len { IfOk result (λ lists. length lists.items ≡ cores) }
    ensures empty { IfOk result (λ lists. at_place [] lists.items ≡ (λ core. [])) }
{
    let mut lists = Vec::new(alloc);
    'cores: for _ in 0..cores {
        lists.push(Packets::new(alloc))?;
    }
    Ok(lists)
}

/// One packet more of a core. It is an error where there is no such core.
#[tactic(auto, using(gr_view::proofs::Puts::at_lists))]
pub fn keep(lists: &mut Vec<Packets>, core: u64, packet: Packet) -> Result<(), AllocError>
    ensures { OnOk result (at_place [] lists.new.items
        ≡ with_last (at_place [] lists.old.items) core packet) }
{
    if core >= lists.len() as u64 {
        return Err(AllocError);
    }
    lists[core as usize].push(packet)
}

/// What a packet says. An error is want of memory.
pub fn open(alloc: Global, packet: &Packet) -> Result<Opened, AllocError>
    ensures { IfOk result (λ opened. opened ≡ packet.now) }
{
    match decode(alloc, packet.bytes()) {
        Ok(opened) => Ok(opened),
        Err(_) => Err(AllocError),
    }
}

//! A slice of a core.
ghost use Rattle.std.specs.Prelude.{IfOk};
ghost use Rattle.gr_slice.specs.Slices.{Sliced};

use crate::gate::Gate;
use crate::tries::advance;
use gr_core::Core;
use gr_reduce::Reducers;
use std::alloc::AllocError;

/// A core after a slice of so many events at most: it makes fewer only where it can make none. Each is the first that it
/// can make of these: Serve; Ship of a full packet, destinations rising; Take, origins rising; Run; Close, objects
/// rising; Ship of any packet, destinations rising; Steal, victims rising. The gate is told of each turn, and of one
/// in which no event was left.
pub fn slice<'a, G: Gate>(
    core: Core<'a>,
    reducers: &Reducers,
    count: u64,
    round: u64,
    gate: &G,
) -> Result<Core<'a>, AllocError>
    ensures { IfOk result (λ after. Sliced count core.entry after) }
{
    let me = core.me();
    let mut core = core;
    'turns: for turn in 0..count {
        gate.at(me, round, turn);
        let advanced = advance(core, reducers)?;
        core = advanced.core;
        if !advanced.done {
            return Ok(core);
        }
    }
    Ok(core)
}

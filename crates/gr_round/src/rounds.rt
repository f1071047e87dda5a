//! A round: a slice of each core.
ghost use Rattle.std.specs.Prelude.{◌≡◌, ◌<◌, ℕ, IfOk, length, slice_index_or};
ghost use Rattle.gr_core.specs.declared.cores.Core.{Core as ACore};
ghost use Rattle.gr_round.specs.Rounds.{AllSliced};
ghost use Rattle.gr_round.specs.RoundWords.{AreOk};
ghost use Rattle.gr_slice.specs.Slices.{Sliced};

use gr_core::Core;
use gr_reduce::Reducers;
use gr_slice::{Gate, slice};
use std::alloc::{AllocError, Global};
use std::thread;
use std::thread::Threads;

/// A slice of each core, each in a thread of its own where one can be made.
fn slices<'a, R: Threads + Sync, G: Gate>(
    rt: &R,
    cores: Vec<Core<'a>>,
    reducers: &Reducers,
    count: u64,
    number: u64,
    gate: &G,
) -> Result<Vec<Result<Core<'a>, AllocError>>, AllocError>
    ensures len { IfOk result (λ slices. length slices.items ≡ length cores.entry.items) }
    ensures each { IfOk result (λ slices. (core : ℕ) (default : ACore) (other : _) → core < length cores.entry.items
        → IfOk (slice_index_or slices.items core other)
        (λ after. Sliced count (slice_index_or cores.entry.items core default) after)) }
{
    thread::map_vec(
        rt,
        cores,
        &|core: Core| -> Result<Core, AllocError>
            ensures { IfOk result (λ after. Sliced count core.entry after) }
        { slice(core, reducers, count, number, gate) },
    )
}

/// The cores of slices that all had memory.
fn collect<'a>(
    alloc: Global,
    slices: Vec<Result<Core<'a>, AllocError>>,
) -> Result<Vec<Core<'a>>, AllocError>
    ensures { IfOk result (λ cores. AreOk slices.entry.items cores.items) }
{
    let mut cores = Vec::new(alloc);
    for slice in slices {
        cores.push(slice?)?;
    }
    Ok(cores)
}

/// A round: each core makes a slice of so many events at most, in a thread of its own where one can be made. The gate
/// is told the number of the round.
pub fn round<'a, R: Threads + Sync, G: Gate>(
    rt: &R,
    cores: Vec<Core<'a>>,
    reducers: &Reducers,
    slice: u64,
    number: u64,
    gate: &G,
) -> Result<Vec<Core<'a>>, AllocError>
    ensures { IfOk result (λ after. AllSliced slice cores.entry.items after.items) }
{
    let alloc = *cores.allocator();
    let slices = slices(rt, cores, reducers, slice, number, gate)?;
    let after = collect(alloc, slices)?;
    Ok(after)
}

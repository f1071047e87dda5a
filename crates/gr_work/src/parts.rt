//! The parts of chunks.
ghost use Rattle.std.specs.Prelude.{◌≡◌, ◌++◌, ◌≤◌, IfOk, OnOk, map};
ghost use Rattle.gr_work.specs.Parts.{kept_end, middle, offered, part};

use gr_msg::Unit;
use std::alloc::{AllocError, Global};
use std::collections::VecDeque;

/// Where the upper half of a range begins.
#[tactic(auto, using(crate::proofs::Halves::middle_is))]
fn middle(lo: u64, hi: u64) -> u64
    requires { lo ≤ hi }
    ensures { result ≡ middle lo hi }
{
    lo + (hi - lo) / 2
}

/// An equal unit.
pub fn copy(unit: &Unit) -> Result<Unit, AllocError>
    ensures { IfOk result (λ copied. copied ≡ unit.now) }
{
    match unit {
        Unit::Single {
            target,
            args,
            scope,
            origin,
            id,
        } => {
            let args = args.copy()?;
            Ok(Unit::Single {
                target: *target,
                args,
                scope: *scope,
                origin: *origin,
                id: *id,
            })
        }
        Unit::Chunk {
            target,
            args,
            scope,
            origin,
            owner,
            lo,
            hi,
            grain,
        } => {
            let args = args.copy()?;
            Ok(Unit::Chunk {
                target: *target,
                args,
                scope: *scope,
                origin: *origin,
                owner: *owner,
                lo: *lo,
                hi: *hi,
                grain: *grain,
            })
        }
    }
}

/// The part of a chunk with the indices from one number to below another.
pub fn part(chunk: Unit, from: u64, to: u64) -> Unit
    ensures { result ≡ part chunk (record { from = from; to = to }) }
{
    match chunk {
        Unit::Chunk {
            target,
            args,
            scope,
            origin,
            owner,
            lo: _,
            hi: _,
            grain,
        } => Unit::Chunk {
            target,
            args,
            scope,
            origin,
            owner,
            lo: from,
            hi: to,
            grain,
        },
        single => single,
    }
}

/// Offers the upper half while there are more indices than the grain, and answers where the range that is left
/// ends.
#[tactic(auto, using(crate::proofs::Halves::by_halves))]
pub fn offer_halves(
    units: &mut VecDeque<Unit>,
    chunk: &Unit,
    lo: u64,
    hi: u64,
    grain: u64,
) -> Result<u64, AllocError>
    requires { lo ≤ hi }
    ensures end { IfOk result (λ end. end ≡ kept_end grain lo hi) }
    ensures offers { OnOk result (units.new.items
        ≡ units.old.items ++ map (part chunk.now) (offered grain lo hi)) }
{
    let mut end = hi;
    'halves: while end - lo > grain {
        let half = middle(lo, end);
        let whole = copy(chunk)?;
        units.push_back(part(whole, half, end))?;
        end = half;
    }
    Ok(end)
}

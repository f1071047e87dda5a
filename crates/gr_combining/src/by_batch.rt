//! The batches that are under way, as a map by their numbers.
ghost use Rattle.std.specs.Prelude.{◌≡◌, None, OnOk, Some, option_map};
ghost use Rattle.gr_view.specs.Places.{put};
ghost use Rattle.gr_combining.specs.CombiningView.{flying_in};

use gr_lang::Calls;
use std::alloc::{AllocError, Global};
use std::collections::BTreeMap;

/// No batches. It takes no memory.
#[tactic(auto, using(crate::proofs::Flying::at_batches))]
pub fn no_batches(alloc: Global) -> BTreeMap<u64, Calls>
    ensures { flying_in result.entries ≡ (λ batch. None) }
{
    BTreeMap::new(alloc)
}

/// The calls of a batch.
#[tactic(auto, using(crate::proofs::Flying::at_batches))]
pub fn find(flying: &BTreeMap<u64, Calls>, batch: u64) -> Option<&Calls>
    ensures { option_map (λ calls. calls.now) result ≡ flying_in flying.now.entries batch }
{
    flying.get(&batch)
}

/// Puts a batch on its way.
#[tactic(auto, using(crate::proofs::Flying::at_batches))]
pub fn add(flying: &mut BTreeMap<u64, Calls>, batch: u64, calls: Calls) -> Result<(), AllocError>
    ensures { OnOk result (flying_in flying.new.entries
        ≡ put (flying_in flying.old.entries) batch (Some calls)) }
{
    let _ = flying.insert(batch, calls)?;
    Ok(())
}

/// Takes the calls of a batch out.
#[tactic(auto, using(crate::proofs::Flying::at_batches))]
pub fn take(flying: &mut BTreeMap<u64, Calls>, batch: u64) -> Option<Calls>
    ensures calls { result ≡ flying_in flying.old.entries batch }
    ensures rest { flying_in flying.new.entries ≡ put (flying_in flying.old.entries) batch None }
{
    flying.remove(&batch)
}

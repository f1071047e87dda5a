//! The calls of the batches that have gone off, by core and number.
ghost use Rattle.std.specs.Prelude.{◌≡◌, [], OnOk};
ghost use Rattle.gr_view.specs.Places.{put};
ghost use Rattle.gr_history.specs.HistoryWords.{calls_in, sent_in};

use gr_lang::Calls;
use std::alloc::{AllocError, Global};
use std::collections::BTreeMap;

/// The core of a batch and its number there.
#[derive(Clone, Copy, PartialEq, Eq, PartialOrd, Ord)]
pub struct BatchId {
    pub core: u64,
    pub number: u64,
}

/// The calls of batches.
pub type Batches<'a> = BTreeMap<BatchId, &'a Calls>;

/// No batches. It takes no memory.
#[tactic(auto, using(crate::proofs::Sent::at_batches))]
pub fn no_batches<'a>(alloc: Global) -> Batches<'a>
    ensures { sent_in result.entries ≡ (λ core number. []) }
{
    BTreeMap::new(alloc)
}

/// The calls of a batch.
#[tactic(auto, using(crate::proofs::Sent::at_batches))]
pub fn find<'a>(batches: &Batches<'a>, id: BatchId) -> Option<&'a Calls>
    ensures { calls_in result ≡ sent_in batches.now.entries id.core id.number }
{
    match batches.get(&id) {
        Some(calls) => Some(*calls),
        None => None,
    }
}

/// A batch has gone off.
#[tactic(auto, using(crate::proofs::Sent::at_batches))]
pub fn add<'a>(batches: &mut Batches<'a>, id: BatchId, calls: &'a Calls) -> Result<(), AllocError>
    ensures { OnOk result (sent_in batches.new.entries ≡ put (sent_in batches.old.entries) id.core
        (put (sent_in batches.old.entries id.core) id.number calls.now)) }
{
    let _ = batches.insert(id, calls)?;
    Ok(())
}

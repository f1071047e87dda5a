//! What the calls of a batch reply.
ghost use Rattle.std.specs.Prelude.{◌≡◌, IfOk};
ghost use Rattle.gr_batch.specs.Folding.{wakes_of};

use gr_lang::{Calls, Reply, Sequence, TaskId};
use gr_reduce::Reducers;
use std::alloc::{AllocError, Global};

/// The reply of a call for the task that waits for it in a slot of its core.
#[derive(Clone, Copy)]
pub struct Woken {
    pub slot: u64,
    pub id: TaskId,
    pub reply: Reply,
}

/// A list of replies with their tasks.
pub type Wakes = Sequence<Woken>;

/// The reply of each call of a batch, in order, where this stood under their key, or was their word, before
/// the batch.
pub fn replies(
    alloc: Global,
    calls: &Calls,
    before: Option<u64>,
    reducers: &Reducers,
) -> Result<Wakes, AllocError>
    ensures { IfOk result (λ wakes. wakes ≡ wakes_of calls.now before) }
{
    let mut wakes = Wakes::new(alloc);
    let mut value = before;
    let list = calls.as_slice();
    for call in list {
        wakes.push(Woken {
            slot: call.slot,
            id: call.id,
            reply: call.op.key_reply(value),
        })?;
        value = reducers.after(call.op.effect(), value);
    }
    Ok(wakes)
}

//! The calls of a vector that wait at a core until they become a group.
ghost use Rattle.std.specs.Prelude.{◌≡◌, ◌++◌, ◌∷◌, [], All, IfOk, OnErr, OnOk, filter, is_some, length, true};
ghost use Rattle.gr_vector.specs.Groups.{calls_of, group_of, vector_of};

use crate::kind::{Kind, is_of};
use gr_lang::{Calls, WaitingCall};
use std::alloc::{AllocError, Global};
use std::marker::Model;

/// The calls of one vector that wait at a core, in the order in which they joined.
#[derive(Drop)]
pub struct VecCombiner {
    calls: Vec<WaitingCall>,
}

impl Model for VecCombiner {
    ghost use Rattle.std.specs.Prelude.{List};
    ghost use Rattle.gr_lang.specs.declared.action.WaitingCall.{WaitingCall};

    ghost Value = { List WaitingCall };

    ghost view = { λ combiner. combiner.calls.items };
}

/// Puts those of the calls that are of one kind last, in their order.
fn gather(group: &mut Vec<WaitingCall>, calls: &[WaitingCall], kind: Kind) -> Result<(), AllocError>
    ensures { OnOk result (group.new.items ≡ group.old.items ++ calls_of kind calls.now) }
{
    for call in calls {
        if is_of(kind, call.op) {
            group.push(*call)?;
        }
    }
    Ok(())
}

/// The group of some calls.
fn grouped(alloc: Global, calls: &[WaitingCall]) -> Result<Vec<WaitingCall>, AllocError>
    ensures { IfOk result (λ group. group.items ≡ group_of calls.now) }
{
    let mut group = Vec::new(alloc);
    gather(&mut group, calls, Kind::Push)?;
    gather(&mut group, calls, Kind::Pop)?;
    gather(&mut group, calls, Kind::Dequeue)?;
    Ok(group)
}

impl VecCombiner {
    /// No calls. It takes no memory.
    pub fn new(alloc: Global) -> VecCombiner
        ensures { result ≡ [] }
    {
        VecCombiner {
            calls: Vec::new(alloc),
        }
    }

    /// A call of the vector joins last. Unchanged where there is no memory.
    pub fn join(&mut self, call: WaitingCall) -> Result<(), AllocError>
        requires vector { is_some (vector_of call.op) ≡ true }
        requires same { All (λ held. vector_of held.op ≡ vector_of call.op) self.old }
        ensures ok { OnOk result (self.new ≡ self.old ++ call ∷ []) }
        ensures err { OnErr result (self.new ≡ self.old) }
    {
        self.calls.push(call)?;
        Ok(())
    }

    /// The number of calls that wait.
    pub fn len(&self) -> u64
        ensures { result ≡ length self.now }
    {
        self.calls.len() as u64
    }

    /// The group of all calls that waited, none of which waits any more: the pushes, then the pops, then the
    /// dequeues, each kind in the order in which its calls joined. Unchanged where there is no memory.
    pub fn close(&mut self, alloc: Global) -> Result<Calls, AllocError>
        ensures group { IfOk result (λ group. group ≡ group_of self.old) }
        ensures ok { OnOk result (self.new ≡ []) }
        ensures err { OnErr result (self.new ≡ self.old) }
    {
        let group = grouped(alloc, &self.calls)?;
        self.calls.clear();
        Ok(Calls::from_vec(group))
    }
}

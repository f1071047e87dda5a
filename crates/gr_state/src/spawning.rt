//! The units of new tasks.
ghost use Rattle.std.specs.Prelude.{◌≡◌, OnOk, Some};
ghost use Rattle.gr_machine.specs.Spawns.{placed, planted};
ghost use Rattle.gr_courses.specs.Seen.{acts_at, does_to};
ghost use Rattle.gr_state.specs.StateView.{seen_of};

use crate::state::State;
use gr_lang::{Entry, How, Reply, TaskId, Words};
use gr_machine::Mark;
use gr_msg::{Msg, Unit};
use std::alloc::AllocError;

impl<'a> State<'a> {
    /// A unit goes last among the core's own, to another core, or last among those that other cores may take.
    fn place(&mut self, how: How, unit: Unit) -> Result<(), AllocError>
        ensures { OnOk result (let s = seen_of self.old in seen_of self.new
            ≡ does_to s (Some (placed s.me s.core.body how unit))) }
    {
        match how {
            How::Here => self.work.push_last(unit),
            How::At { core } => {
                if core == self.posts.me() {
                    self.work.push_last(unit)
                } else {
                    self.send(core, Msg::Spawn { unit })
                }
            }
            How::Offer => self.work.offer(unit),
        }
    }

    /// The unit of a new task is made and marked, and the task in the slot, which made it, goes on and is ready.
    pub fn plant(&mut self, slot: u64, how: How, target: u64, args: Words) -> Result<(), AllocError>
        ensures { OnOk result (let s = seen_of self.old in seen_of self.new ≡ acts_at s slot
            (λ task. planted s.machine s.me s.core.body slot task how target args)) }
    {
        let Some(task) = self.slots.get(slot) else {
            return Ok(());
        };
        let (id, scope) = (task.id, task.innermost());
        let origin = self.posts.me();
        let child = TaskId {
            core: origin,
            number: self.slots.number()?,
        };
        let given = args.copy()?;
        self.resume(slot, Reply::nothing())?;
        self.mark(Mark::Entry {
            entry: Entry::Spawn {
                task: id,
                how,
                target,
                args: given,
                child,
            },
        })?;
        self.place(
            how,
            Unit::Single {
                target,
                args,
                scope,
                origin,
                id: child,
            },
        )
    }
}

//! Tasks in slots that go on, or wait for something else.
ghost use Rattle.std.specs.Prelude.{◌≡◌, OnOk};
ghost use Rattle.gr_machine.specs.ScopeRuns.{passes};
ghost use Rattle.gr_machine.specs.Slots.{resumed, resumed_all, rewaiting, rewaiting_task};
ghost use Rattle.gr_courses.specs.Seen.{acts_at, with_body};
ghost use Rattle.gr_state.specs.StateView.{seen_of};

use crate::state::State;
use gr_batch::Woken;
use gr_lang::{Entry, Reply, WaitingCall};
use gr_machine::{Mark, Waits};
use std::alloc::AllocError;

impl<'a> State<'a> {
    /// The task in a slot goes on with the reply and is ready, where there is one.
    pub fn resume(&mut self, slot: u64, reply: Reply) -> Result<(), AllocError>
        ensures { OnOk result (let s = seen_of self.old in seen_of self.new
            ≡ with_body s (resumed s.machine s.core.body slot reply)) }
    {
        let steps = self.posts.setup().steps;
        self.slots.resume(self.alloc, steps, slot, reply)
    }

    /// So do some, one after another.
    pub fn resume_all(&mut self, wakes: &[Woken]) -> Result<(), AllocError>
        ensures { OnOk result (let s = seen_of self.old in seen_of self.new
            ≡ with_body s (resumed_all s.machine s.core.body wakes.now)) }
    {
        for wake in wakes {
            self.resume(wake.slot, wake.reply)?;
        }
        Ok(())
    }

    /// The task in a slot waits for something else, where there is one.
    fn rewait(&mut self, slot: u64, reason: Waits)
        ensures { let s = seen_of self.old in seen_of self.new ≡ with_body s
            (rewaiting_task s.core.body slot reason (s.core.body.tasks.slots slot)) }
    {
        self.slots.wait(slot, reason);
    }

    /// The tasks of these calls wait for something else.
    pub fn rewait_all(&mut self, reason: Waits, calls: &[WaitingCall])
        ensures { let s = seen_of self.old in seen_of self.new
            ≡ with_body s (rewaiting s.core.body reason calls.now) }
    {
        for call in calls {
            self.rewait(call.slot, reason);
        }
    }

    /// The task in a slot passes its innermost scope, where there is one.
    #[tactic(auto, using(crate::proofs::There::when_there))]
    pub fn pass(&mut self, slot: u64) -> Result<(), AllocError>
        ensures { OnOk result (let s = seen_of self.old in seen_of self.new
            ≡ acts_at s slot (λ task. passes s.machine s.core.body slot task)) }
    {
        let Some(task) = self.slots.get(slot) else {
            return Ok(());
        };
        let id = task.id;
        self.slots.pass(slot);
        self.resume(slot, Reply::nothing())?;
        self.mark(Mark::Entry {
            entry: Entry::Pass { task: id },
        })
    }
}

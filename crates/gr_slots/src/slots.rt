//! The slots of a core.
ghost use Rattle.std.specs.Prelude.{◌≡◌, IfOk, OnOk, None, Some, slice_get};
ghost use Rattle.std.specs.Option.{option_map};
ghost use Rattle.slab.specs.Slab.{Updates};
ghost use Rattle.gr_work.specs.Queues.{is_empty};
ghost use Rattle.gr_machine.specs.Slots.{awaits_batch, awaits_enrolment, awaits_reply, awaits_scope, awaits_turn, named_awaits, one_awaits};
ghost use Rattle.gr_slots.specs.Held.{changed, none_held, numbered, planted, resumed, to_open, to_pass, to_wait, with_slot, without_ready};
ghost use Rattle.gr_slots.specs.SlotView.{held_in, suspended};

use crate::awaiting::{self, same_id};
use crate::task::Task;
use gr_code::Code;
use gr_lang::{Reply, TaskId};
use gr_machine::Waits;
use gr_msg::ScopeId;
use slab::Slab;
use std::alloc::{AllocError, Global};
use std::collections::VecDeque;
use std::marker::Model;

/// The tasks of a core that stand in slots, over the code of their program; which slots are ready, in order; and the
/// number of the next task that is made at this core.
#[derive(Drop)]
pub struct Slots<'a> {
    code: &'a Code<'a>,
    tasks: Slab<Task>,
    ready: VecDeque<u64>,
    next: u64,
}

impl<'a> Model for Slots<'a> {
    ghost use Rattle.std.specs.Coded.{codes};
    ghost use Rattle.gr_syntax.specs.contracts.syntax.Stmt as stmt;
    ghost use Rattle.gr_slots.specs.SlotView.{SlotsData, AreSuspended};

    ghost Value = { SlotsData };

    ghost coded = { Prim.hlevel (codes, stmt.the_row.coded) };

    ghost view = { λ s. record {
      code = s.code.now;
      slots = s.tasks.slots;
      ready = s.ready.items;
      next = s.next;
    } };

    ghost invariant = { λ s. AreSuspended s.code.now s.tasks.slots };
}

/// No task is in the slot from now on.
fn clear(tasks: &mut Slab<Task>, slot: u64)
    ensures { Updates tasks.old tasks.new slot None }
{
    let _ = tasks.try_remove(slot as usize);
}

impl<'a> Slots<'a> {
    /// No tasks.
    #[tactic(auto, using(crate::proofs::InSlots::at_slots))]
    pub fn new(alloc: Global, code: &'a Code<'a>) -> Slots<'a>
        ensures { held_in result ≡ none_held code.now.program }
    {
        Slots {
            code,
            tasks: Slab::new(alloc),
            ready: VecDeque::new(alloc),
            next: 0,
        }
    }

    /// The code.
    pub fn code(&self) -> &'a Code<'a>
        ensures { result.now.program ≡ (held_in self.now).program }
    {
        self.code
    }

    /// A task that hasn't started is ready in a slot that was free; it answers the slot. The task makes at most `steps`
    /// pure steps up to its first action. An error is want of memory.
    #[tactic(auto, using(crate::proofs::InSlots::at_slots))]
    pub fn plant(
        &mut self,
        alloc: Global,
        steps: u64,
        target: u64,
        args: &[u64],
        id: TaskId,
        scope: ScopeId,
        origin: u64,
    ) -> Result<u64, AllocError>
        ensures free { IfOk result (λ slot. (held_in self.old).tasks.slots slot ≡ None) }
        ensures planted { IfOk result (λ slot. held_in self.new
            ≡ planted steps (held_in self.old) slot target args.now id scope origin) }
    {
        let task = Task::start(alloc, self.code, steps, target, args, id, scope, origin)?;
        let slot = self.tasks.insert(task)? as u64;
        self.ready.push_back(slot)?;
        Ok(slot)
    }

    /// The first ready slot, which stays ready; none where no slot is ready.
    pub fn first_ready(&self) -> Option<u64>
        ensures { result ≡ slice_get (held_in self.now).tasks.ready 0 }
    {
        self.ready.front().copied()
    }

    /// Takes the first ready slot; none where no slot is ready.
    pub fn next_ready(&mut self) -> Option<u64>
        ensures slot { result ≡ slice_get (held_in self.old).tasks.ready 0 }
        ensures rest { held_in self.new ≡ without_ready (held_in self.old) }
    {
        self.ready.pop_front()
    }

    /// Whether no slot is ready.
    pub fn none_ready(&self) -> bool
        ensures { result ≡ is_empty (held_in self.now).tasks.ready }
    {
        self.ready.is_empty()
    }

    /// The task in a slot; none where no task is there.
    #[tactic(auto, using(crate::proofs::InSlots::at_slots))]
    pub fn get(&self, slot: u64) -> Option<&Task>
        ensures { option_map (λ task. suspended self.now.code task.now) result
            ≡ (held_in self.now).tasks.slots slot }
    {
        self.tasks.get(slot as usize)
    }

    /// The task in a slot waits for this from now on.
    #[tactic(auto, using(crate::proofs::InSlots::at_slots))]
    pub fn wait(&mut self, slot: u64, reason: Waits)
        ensures { held_in self.new ≡ changed (to_wait reason) (held_in self.old) slot }
    {
        let Some(task) = self.tasks.get_mut(slot as usize) else {
            return;
        };
        task.wait(reason);
    }

    /// The task in a slot has opened a scope. An error is want of memory.
    #[tactic(auto, using(crate::proofs::InSlots::at_slots))]
    pub fn open(&mut self, slot: u64, scope: ScopeId) -> Result<(), AllocError>
        ensures { OnOk result
            (held_in self.new ≡ changed (to_open scope) (held_in self.old) slot) }
    {
        let Some(task) = self.tasks.get_mut(slot as usize) else {
            return Ok(());
        };
        task.open(scope)
    }

    /// The task in a slot has passed the scope that it has opened last.
    #[tactic(auto, using(crate::proofs::InSlots::at_slots))]
    pub fn pass(&mut self, slot: u64)
        ensures { held_in self.new ≡ changed to_pass (held_in self.old) slot }
    {
        let Some(task) = self.tasks.get_mut(slot as usize) else {
            return;
        };
        task.pass();
    }

    /// The task in a slot goes on after its action, with the reply, and is ready. It makes at most `steps` pure steps up
    /// to its next action. An error is want of memory.
    #[tactic(auto, using(crate::proofs::InSlots::at_slots))]
    pub fn resume(
        &mut self,
        alloc: Global,
        steps: u64,
        slot: u64,
        reply: Reply,
    ) -> Result<(), AllocError>
        ensures { OnOk result (held_in self.new ≡ resumed steps (held_in self.old) slot reply) }
    {
        // Where memory is wanting, a task has no action at which it stands. So it runs outside of its slot.
        let Some(mut task) = self.tasks.try_remove(slot as usize) else {
            return Ok(());
        };
        task.resume(alloc, self.code, steps, reply)?;
        let slot = self.tasks.insert_reserved(task) as u64;
        self.ready.push_back(slot)?;
        Ok(())
    }

    /// No task is in the slot from now on.
    #[tactic(auto, using(crate::proofs::InSlots::at_slots))]
    pub fn remove(&mut self, slot: u64)
        ensures { held_in self.new ≡ with_slot (held_in self.old) slot None }
    {
        clear(&mut self.tasks, slot);
    }

    /// The number of the next task, which is used from now on. It is an error where numbers run out, at `u64::MAX`.
    pub fn number(&mut self) -> Result<u64, AllocError>
        ensures value { IfOk result (λ number. number ≡ (held_in self.old).tasks.next) }
        ensures rest { OnOk result (held_in self.new ≡ numbered (held_in self.old)) }
    {
        let number = self.next;
        self.next = number.checked_add(1).ok_or(AllocError)?;
        Ok(number)
    }

    /// Whether the task of this name is in the slot, and waits for a reply.
    pub fn awaits_reply(&self, slot: u64, id: TaskId) -> bool
        ensures { result ≡ named_awaits awaits_reply id ((held_in self.now).tasks.slots slot) }
    {
        match self.get(slot) {
            Some(task) => awaiting::awaits_reply(task.waits) && same_id(task.id, id),
            None => false,
        }
    }

    /// Whether the task of this name is in the slot, and waits for this batch.
    pub fn awaits_batch(&self, slot: u64, id: TaskId, batch: u64) -> bool
        ensures { result
            ≡ named_awaits (awaits_batch batch) id ((held_in self.now).tasks.slots slot) }
    {
        match self.get(slot) {
            Some(task) => awaiting::awaits_batch(task.waits, batch) && same_id(task.id, id),
            None => false,
        }
    }

    /// Whether the task of this name is in the slot, and waits for a turn at this vector.
    pub fn awaits_turn(&self, slot: u64, id: TaskId, vector: u64) -> bool
        ensures { result
            ≡ named_awaits (awaits_turn vector) id ((held_in self.now).tasks.slots slot) }
    {
        match self.get(slot) {
            Some(task) => awaiting::awaits_turn(task.waits, vector) && same_id(task.id, id),
            None => false,
        }
    }

    /// Whether a task is in the slot that waits until its core may count tasks of this scope.
    pub fn awaits_enrolment(&self, slot: u64, scope: ScopeId) -> bool
        ensures { result
            ≡ one_awaits (awaits_enrolment scope) ((held_in self.now).tasks.slots slot) }
    {
        match self.get(slot) {
            Some(task) => awaiting::awaits_enrolment(task.waits, scope),
            None => false,
        }
    }

    /// Whether a task is in the slot that waits for the end of this scope.
    pub fn awaits_scope(&self, slot: u64, scope: ScopeId) -> bool
        ensures { result ≡ one_awaits (awaits_scope scope) ((held_in self.now).tasks.slots slot) }
    {
        match self.get(slot) {
            Some(task) => awaiting::awaits_scope(task.waits, scope),
            None => false,
        }
    }
}

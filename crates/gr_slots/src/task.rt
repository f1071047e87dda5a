//! A task in a slot.
ghost use Rattle.std.specs.Prelude.{◌≡◌, ◌∷◌, drop, slice_get, IfOk, OnOk};
ghost use Rattle.gr_machine.specs.Machines.{code_of};
ghost use Rattle.gr_machine.specs.Openings.{new_task};
ghost use Rattle.gr_machine.specs.Slots.{innermost_of, stands_at};
ghost use Rattle.gr_slots.specs.SlotView.{IsSuspended, suspended};

use gr_code::Code;
use gr_lang::{Action, Reply, TaskId};
use gr_machine::Waits;
use gr_msg::ScopeId;
use gr_task::TaskState;
use std::alloc::{AllocError, Global};
use std::collections::VecDeque;
use std::marker::Model;

/// A task in a slot: its name; its own scope; the core that counts its end, its origin; its next action, with the state
/// in which that stands; what it waits for; and the scopes that it has opened and not passed, the innermost first.
#[derive(Drop)]
pub struct Task {
    pub id: TaskId,
    pub scope: ScopeId,
    pub origin: u64,
    pub action: Action,
    pub(crate) state: TaskState,
    pub waits: Waits,
    pub(crate) opened: VecDeque<ScopeId>,
}

impl Model for Task {
    ghost use Rattle.gr_slots.specs.SlotView.{TaskData};

    ghost Value = { TaskData };

    ghost view = { λ t. record {
      id = t.id;
      scope = t.scope;
      origin = t.origin;
      action = t.action;
      state = t.state;
      waits = t.waits;
      opened = t.opened.items;
    } };
}

impl Task {
    /// A task that hasn't started, at its first action.
    pub(crate) fn start(
        alloc: Global,
        code: &Code,
        steps: u64,
        target: u64,
        args: &[u64],
        id: TaskId,
        scope: ScopeId,
        origin: u64,
    ) -> Result<Task, AllocError>
        ensures stands { IfOk result (λ task. suspended code.now task
            ≡ new_task id scope origin ((code_of code.now.program steps).start target args.now)) }
        ensures suspended { IfOk result (λ task. IsSuspended code.now task.state) }
    {
        let mut state = TaskState::start(alloc, code, target, args)?;
        let action = state.run_to_action(alloc, code, steps)?;
        Ok(Task {
            id,
            scope,
            origin,
            action,
            state,
            waits: Waits::Going,
            opened: VecDeque::new(alloc),
        })
    }

    /// The scope under which its new work stands: the innermost that it has opened, or else its own.
    pub fn innermost(&self) -> ScopeId
        ensures { result ≡ innermost_of self.now.scope self.now.opened }
    {
        match self.opened.front() {
            Some(scope) => *scope,
            None => self.scope,
        }
    }

    /// The scope that it has opened last and not passed.
    pub fn opened(&self) -> Option<ScopeId>
        ensures { result ≡ slice_get self.now.opened 0 }
    {
        self.opened.front().copied()
    }

    /// It waits for this from now on.
    pub(crate) fn wait(&mut self, reason: Waits)
        ensures { self.new ≡ record self.old { waits = reason } }
    {
        self.waits = reason;
    }

    /// It has opened a scope.
    pub(crate) fn open(&mut self, scope: ScopeId) -> Result<(), AllocError>
        ensures opened { OnOk result
            (self.new ≡ record self.old { opened = scope ∷ self.old.opened }) }
        ensures state { self.new.state ≡ self.old.state }
    {
        self.opened.push_front(scope)?;
        Ok(())
    }

    /// It has passed the scope that it has opened last.
    pub(crate) fn pass(&mut self)
        ensures { self.new ≡ record self.old { opened = drop 1 self.old.opened } }
    {
        self.opened.pop_front();
    }

    /// It goes on after its action, with the reply, up to its next.
    pub(crate) fn resume(
        &mut self,
        alloc: Global,
        code: &Code,
        steps: u64,
        reply: Reply,
    ) -> Result<(), AllocError>
        requires { IsSuspended code.now self.old.state }
        ensures stands { OnOk result (let task = suspended code.now self.old in suspended code.now self.new
            ≡ stands_at task ((code_of code.now.program steps).go_on task.running reply)) }
        ensures suspended { OnOk result (IsSuspended code.now self.new.state) }
    {
        self.state.resume(reply);
        self.action = self.state.run_to_action(alloc, code, steps)?;
        self.waits = Waits::Going;
        Ok(())
    }
}

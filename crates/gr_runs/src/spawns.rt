//! A ready task is trapped, or makes a new one, which is counted under its scope.
ghost use Rattle.std.specs.Prelude.{◌≡◌, OnOk};
ghost use Rattle.gr_lang.specs.Steps.{has_core};
ghost use Rattle.gr_machine.specs.Machines.{is_core};
ghost use Rattle.gr_machine.specs.Slots.{innermost};
ghost use Rattle.gr_machine.specs.Spawns.{asks_enrolment, can_enrol, spawns, spawns_under, trapped};
ghost use Rattle.gr_courses.specs.Seen.{acts_at};
ghost use Rattle.gr_state.specs.StateView.{seen_of};

use crate::waiting::{remove, wait};
use gr_event::Enrol;
use gr_lang::{Entry, How, TrapKind, Words};
use gr_machine::{Mark, Waits};
use gr_msg::{Msg, ScopeId};
use gr_state::State;
use std::alloc::AllocError;

/// A scope counts fewer tasks than these.
const MOST: u128 = 1 << 127;

/// The task in a slot is trapped, and so its core.
pub fn trap(state: &mut State, slot: u64, kind: TrapKind) -> Result<(), AllocError>
    ensures { OnOk result (let s = seen_of state.old in seen_of state.new
        ≡ acts_at s slot (λ task. trapped s.core.body slot task kind)) }
{
    let Some(task) = state.slots.get(slot) else {
        return Ok(());
    };
    let id = task.id;
    state.slots.wait(slot, Waits::Nothing);
    state.trapped = true;
    state.mark(Mark::Entry {
        entry: Entry::Trap { task: id, kind },
    })
}

/// Whether there is a core of this number.
pub fn is_core(state: &State, core: u64) -> bool
    ensures { result ≡ is_core (seen_of state.now).machine core }
{
    core < state.posts.setup().cores
}

/// Whether a spawn names no core, or one that there is.
fn has_core(state: &State, how: How) -> bool
    ensures { result ≡ has_core (seen_of state.now).machine.setup.cores how }
{
    match how {
        How::At { core } => core < state.posts.setup().cores,
        _ => true,
    }
}

/// Whether the scope's home is a core, and the count doesn't grow too large.
fn can_enrol(state: &State, scope: ScopeId) -> bool
    ensures { let s = seen_of state.now in
        result ≡ can_enrol s.machine scope (s.core.body.scopes.counts scope) }
{
    is_core(state, scope.core) && state.counts.count(scope).unwrap_or(0) < MOST
}

/// The core asks the home of the scope under which the task in the slot stands whether it may count, and the task
/// waits.
fn ask_enrolment(state: &mut State, slot: u64, scope: ScopeId) -> Result<(), AllocError>
    ensures { OnOk result (let s = seen_of state.old in seen_of state.new
        ≡ acts_at s slot (λ task. asks_enrolment s.core.body slot task scope)) }
{
    if state.slots.get(slot).is_none() {
        return Ok(());
    }
    state.slots.wait(slot, Waits::Enrolment { scope });
    state.send(scope.core, Msg::Enrol { scope })
}

/// The new task is counted and made, or the task in the slot waits until its core may count.
fn spawn_under(
    state: &mut State,
    slot: u64,
    how: How,
    target: u64,
    args: Words,
) -> Result<(), AllocError>
    ensures { OnOk result (let s = seen_of state.old in seen_of state.new ≡ acts_at s slot
        (λ task. spawns_under s.machine s.me s.core.body slot task how target args
        (s.core.body.scopes.counts (innermost task)))) }
{
    let Some(task) = state.slots.get(slot) else {
        return Ok(());
    };
    let scope = task.innermost();
    if !can_enrol(state, scope) {
        remove(state, slot);
        return Ok(());
    }
    match state.counts.enrol(scope, slot)? {
        Enrol::Counted => state.plant(slot, how, target, args),
        Enrol::Ask => ask_enrolment(state, slot, scope),
        Enrol::Waiting => {
            wait(state, slot, Waits::Enrolment { scope });
            Ok(())
        }
    }
}

/// The task in a slot makes a new one. A spawn at a core that there isn't is a trap.
pub fn spawn(
    state: &mut State,
    slot: u64,
    how: How,
    target: u64,
    args: Words,
) -> Result<(), AllocError>
    ensures { OnOk result (let s = seen_of state.old in seen_of state.new ≡ acts_at s slot
        (λ task. spawns s.machine s.me s.core.body slot task how target args)) }
{
    if has_core(state, how) {
        spawn_under(state, slot, how, target, args)
    } else {
        trap(state, slot, TrapKind::Core)
    }
}

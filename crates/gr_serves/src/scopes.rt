//! Units that come, cores that become active in scopes and leave them, and tasks that pass scopes.
ghost use Rattle.std.specs.Prelude.{◌≡◌, ◌≤◌, IsSome, IsSomeAnd, OnOk, Some, false, nat_le, true};
ghost use Rattle.std.specs.List.{list_all};
ghost use Rattle.std.specs.Option.{option_map_or};
ghost use Rattle.gr_event.specs.Counts.{waiting_slots};
ghost use Rattle.gr_event.specs.Masters.{release_of, released};
ghost use Rattle.gr_machine.specs.ScopeRuns.{can_leave};
ghost use Rattle.gr_machine.specs.ScopeServes.{acked, can_enrol_one, core_enrolled, core_left};
ghost use Rattle.gr_machine.specs.ScopeServes.{over, passed_by, planted_in, spawned, tasks_completed};
ghost use Rattle.gr_machine.specs.Slots.{awaits_enrolment, one_awaits};
ghost use Rattle.gr_courses.specs.Folds.{planted_from};
ghost use Rattle.gr_courses.specs.Seen.{does_to};
ghost use Rattle.gr_slots.specs.SlotView.{held_in};
ghost use Rattle.gr_state.specs.StateView.{seen_of};
ghost use Rattle.gr_serves.specs.ScopeWords.{HasFew, HasSome, counts_and_plants};

use gr_event::{LocalCount, LocalLeft, Master, Release, Waiter};
use gr_lang::{Action, Entry};
use gr_machine::Mark;
use gr_msg::{Msg, ScopeId, Unit};
use gr_slots::Slots;
use gr_state::State;
use std::alloc::AllocError;

/// A unit from another core is the last of the core's own.
pub fn spawn(state: &mut State, unit: Unit) -> Result<(), AllocError>
    ensures { OnOk result (let s = seen_of state.old in seen_of state.new
        ≡ does_to s (Some (spawned s.core.body unit))) }
{
    state.work.push_last(unit)
}

/// Whether fewer than 2^63 cores are active at the master of a scope.
fn can_enrol(master: Option<Master>) -> bool
    ensures value { result ≡ can_enrol_one master }
    ensures few { result ≡ true → HasFew master }
{
    match master {
        Some(master) => master.active < 1 << 63,
        None => false,
    }
}

/// The core that asks is active in the scope.
pub fn enrol(state: &mut State, from: u64, scope: ScopeId) -> Result<(), AllocError>
    ensures { OnOk result (let s = seen_of state.old in seen_of state.new ≡ does_to s
        (core_enrolled s.core.body from scope (s.core.body.scopes.masters scope))) }
{
    if can_enrol(state.masters.get(scope)) {
        state.masters.enrol(scope);
        return state.send(from, Msg::EnrolAck { scope });
    }
    Ok(())
}

/// The task in a slot makes the unit for which it waited.
fn plant(state: &mut State, slot: u64) -> Result<(), AllocError>
    ensures { OnOk result (let s = seen_of state.old in seen_of state.new ≡ does_to s
        (Some (planted_in s.machine s.me s.core.body slot (s.core.body.tasks.slots slot)))) }
{
    let Some(task) = state.slots.get(slot) else {
        return Ok(());
    };
    let Action::Spawn { how, target, args } = &task.action else {
        state.slots.remove(slot);
        return Ok(());
    };
    let (how, target) = (*how, *target);
    let args = args.copy()?;
    state.plant(slot, how, target, args)
}

/// So do some, one after another.
fn plant_all(state: &mut State, slots: &[u64]) -> Result<(), AllocError>
    ensures { OnOk result (seen_of state.new ≡ planted_from (seen_of state.old) slots.now) }
{
    for slot in slots {
        plant(state, *slot)?;
    }
    Ok(())
}

/// Whether a task is in each slot that waits until its core may count in the scope.
fn all_wait(tasks: &Slots, scope: ScopeId, slots: &[u64]) -> bool
    ensures { result ≡ list_all (λ slot. one_awaits (awaits_enrolment scope)
        ((held_in tasks.now).tasks.slots slot)) slots.now }
{
    slots
        .iter()
        .all(|slot| tasks.awaits_enrolment(*slot, scope))
}

/// This core counts in the scope, at which slots wait, and each of these makes its unit.
fn plant_waiting(state: &mut State, scope: ScopeId) -> Result<(), AllocError>
    requires { IsSome (waiting_slots ((seen_of state.old).core.body.scopes.counts scope)) }
    ensures { OnOk result (let s = seen_of state.old in seen_of state.new ≡ does_to s
        (counts_and_plants s.machine s.me s.core.body scope (s.core.body.scopes.counts scope))) }
{
    let slots = state.counts.acked(scope)?;
    plant_all(state, slots.as_slice())
}

/// This core counts in the scope: each slot that waited for that makes its unit.
pub fn count(state: &mut State, scope: ScopeId) -> Result<(), AllocError>
    ensures { OnOk result (let s = seen_of state.old in seen_of state.new ≡ does_to s
        (acked s.machine s.me s.core.body scope (s.core.body.scopes.counts scope))) }
{
    let Some(LocalCount::Waits { slots }) = state.counts.get(scope) else {
        return Ok(());
    };
    if all_wait(&state.slots, scope, slots.as_slice()) {
        return plant_waiting(state, scope);
    }
    Ok(())
}

/// Whether a scope with this count counts at least so many tasks.
fn can_complete(count: Option<u128>, ended: u64) -> bool
    ensures value { result ≡ option_map_or (λ tasks. nat_le ended tasks) count false }
    ensures enough { result ≡ true → IsSomeAnd count (λ tasks. ended ≤ tasks) }
{
    match count {
        Some(count) => ended as u128 <= count,
        None => false,
    }
}

/// So many tasks less are counted. The scope's home is told when none is left.
pub fn complete(state: &mut State, scope: ScopeId, ended: u64) -> Result<(), AllocError>
    ensures { OnOk result (let s = seen_of state.old in seen_of state.new ≡ does_to s
        (tasks_completed s.machine s.core.body scope ended (s.core.body.scopes.counts scope))) }
{
    if scope.core < state.posts.setup().cores && can_complete(state.counts.count(scope), ended) {
        return match state.counts.complete(scope, ended) {
            LocalLeft::More => Ok(()),
            LocalLeft::Zero => state.send(scope.core, Msg::Leave { scope }),
        };
    }
    Ok(())
}

/// Whether a core is active at the master of a scope.
fn can_leave(master: Option<Master>) -> bool
    ensures value { result ≡ can_leave master }
    ensures some { result ≡ true → HasSome master }
{
    match master {
        Some(master) => 0 < master.active,
        None => false,
    }
}

/// Who is released when a core leaves.
fn release(master: Option<Master>) -> Release
    ensures { result ≡ release_of (released master) }
{
    match master {
        Some(
            Master {
                active: 1,
                waiter: Some(waiter),
            },
        ) => Release::Released { waiter },
        _ => Release::Held,
    }
}

/// The program has ended.
fn end(state: &mut State, scope: ScopeId) -> Result<(), AllocError>
    requires { HasSome ((seen_of state.old).core.body.scopes.masters scope) }
    ensures { OnOk result (let s = seen_of state.old in seen_of state.new
        ≡ does_to s (Some (over s.core.body scope))) }
{
    state.masters.leave(scope);
    state.passed = true;
    state.mark(Mark::Entry { entry: Entry::Over })
}

/// The task in the slot passes the scope in this very event, if it waits for just that.
fn pass(state: &mut State, scope: ScopeId, slot: u64) -> Result<(), AllocError>
    requires { HasSome ((seen_of state.old).core.body.scopes.masters scope) }
    ensures { OnOk result (let s = seen_of state.old in seen_of state.new ≡ does_to s
        (passed_by s.machine s.core.body scope slot (s.core.body.tasks.slots slot))) }
{
    if state.slots.awaits_scope(slot, scope) {
        state.masters.leave(scope);
        return state.pass(slot);
    }
    Ok(())
}

/// One core less is active in the scope: others are, or nobody waits; or the waiter passes.
pub fn leave(state: &mut State, scope: ScopeId) -> Result<(), AllocError>
    ensures { OnOk result (let s = seen_of state.old in seen_of state.new ≡ does_to s
        (core_left s.machine s.core.body scope (s.core.body.scopes.masters scope))) }
{
    let master = state.masters.get(scope);
    if !can_leave(master) {
        return Ok(());
    }
    match release(master) {
        Release::Held => {
            state.masters.leave(scope);
            Ok(())
        }
        Release::Released {
            waiter: Waiter::Task { slot },
        } => pass(state, scope, slot),
        Release::Released {
            waiter: Waiter::Root,
        } => end(state, scope),
    }
}

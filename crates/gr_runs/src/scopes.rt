//! A ready task opens a finish or a loop, arrives at the end of a finish, or ends.
ghost use Rattle.std.specs.Prelude.{◌≡◌, ◌≤◌, ◌<◌, None, OnOk, Some, true};
ghost use Rattle.std.specs.Option.{option_map};
ghost use Rattle.gr_event.specs.Counts.{left_of};
ghost use Rattle.gr_event.specs.Masters.{masters_of, new_master, release_of, released, wait_for};
ghost use Rattle.gr_event.specs.declared.masters.Waiter.TheVariants as waiter;
ghost use Rattle.gr_event.specs.Scopes.{put_scope};
ghost use Rattle.gr_lang.specs.Effects.{nothing};
ghost use Rattle.gr_machine.specs.declared.waits.Waits.TheVariants as reason;
ghost use Rattle.gr_machine.specs.ScopeRuns.{arrived, arrives, arrives_in, arrives_last, can_arrive, can_leave, ends, finishes};
ghost use Rattle.gr_machine.specs.ScopeRuns.{is_new_scope, loops, loops_over, loops_over_nothing, own_scope, with_scope};
ghost use Rattle.gr_slots.specs.Held.{changed, resumed_by, to_open, to_wait};
ghost use Rattle.gr_slots.specs.SlotView.{held_in};
ghost use Rattle.gr_courses.specs.Seen.{acts_at, with_body};
ghost use Rattle.gr_state.specs.StateView.{seen_of};

use crate::spawns::is_core;
use crate::waiting::{remove, wait};
use gr_event::{LocalLeft, Masters, Release, Waiter};
use gr_lang::{Entry, Reply, Words};
use gr_machine::{Mark, Waits};
use gr_msg::{Msg, ScopeId, Unit};
use gr_slots::Slots;
use gr_state::State;
use std::alloc::{AllocError, Global};

/// The name of the next scope that is opened here.
fn own_scope(state: &State) -> ScopeId
    ensures { let s = seen_of state.now in result ≡ own_scope s.me s.core.body }
{
    ScopeId {
        core: state.posts.me(),
        number: state.scopes,
    }
}

/// Whether no scope of this name is there.
fn is_new_scope(state: &State, scope: ScopeId) -> bool
    ensures { result ≡ is_new_scope (seen_of state.now).core.body scope }
{
    state.counts.get(scope).is_none() && state.masters.get(scope).is_none()
}

/// A new scope is there, with this core alone active, which counts so many tasks of it. It is an error where the
/// numbers of scopes run out.
fn begin_scope(state: &mut State, scope: ScopeId, tasks: u128) -> Result<(), AllocError>
    requires new { is_new_scope (seen_of state.old).core.body scope ≡ true }
    requires some { 1 ≤ tasks }
    ensures { OnOk result (let s = seen_of state.old in seen_of state.new
        ≡ with_body s (with_scope s.core.body scope tasks new_master)) }
{
    let next = state.scopes.checked_add(1).ok_or(AllocError)?;
    state.counts.start(scope, tasks)?;
    state.masters.start(scope)?;
    state.scopes = next;
    Ok(())
}

/// The master of a new scope is there, at which the task in a slot waits.
fn begin_waited(masters: &mut Masters, scope: ScopeId, slot: u64) -> Result<(), AllocError>
    requires { masters_of masters.old scope ≡ None }
    ensures { OnOk result (masters_of masters.new ≡ put_scope (masters_of masters.old) scope
        (Some (wait_for (waiter.Task slot) new_master))) }
{
    masters.start(scope)?;
    masters.wait(scope, Waiter::Task { slot });
    Ok(())
}

/// A new scope is there, for whose end the task in a slot waits.
fn begin_loop(state: &mut State, scope: ScopeId, tasks: u128, slot: u64) -> Result<(), AllocError>
    requires new { is_new_scope (seen_of state.old).core.body scope ≡ true }
    requires some { 1 ≤ tasks }
    ensures { OnOk result (let s = seen_of state.old in seen_of state.new ≡ with_body s
        (with_scope s.core.body scope tasks (wait_for (waiter.Task slot) new_master))) }
{
    let next = state.scopes.checked_add(1).ok_or(AllocError)?;
    state.counts.start(scope, tasks)?;
    begin_waited(&mut state.masters, scope, slot)?;
    state.scopes = next;
    Ok(())
}

/// The scope is the innermost of the task in a slot, which goes on and is ready.
fn go_on_in(
    slots: &mut Slots,
    alloc: Global,
    steps: u64,
    slot: u64,
    scope: ScopeId,
) -> Result<(), AllocError>
    ensures { OnOk result (held_in slots.new ≡ resumed_by steps (held_in slots.old) slot nothing
        (option_map (to_open scope) ((held_in slots.old).tasks.slots slot))) }
{
    slots.open(slot, scope)?;
    slots.resume(alloc, steps, slot, Reply::nothing())?;
    Ok(())
}

/// The scope is the innermost of the task in a slot, which waits for its end.
fn wait_in(slots: &mut Slots, slot: u64, scope: ScopeId) -> Result<(), AllocError>
    ensures { OnOk result (held_in slots.new ≡ changed
        (λ task. to_wait (reason.Scope scope) (to_open scope task)) (held_in slots.old) slot) }
{
    slots.open(slot, scope)?;
    slots.wait(slot, Waits::Scope { scope });
    Ok(())
}

/// The task in a slot opens a finish. A finish counts 1, for its end.
pub fn finish(state: &mut State, slot: u64) -> Result<(), AllocError>
    ensures { OnOk result (let s = seen_of state.old in seen_of state.new
        ≡ acts_at s slot (λ task. finishes s.machine s.me s.core.body slot task)) }
{
    let Some(task) = state.slots.get(slot) else {
        return Ok(());
    };
    let id = task.id;
    let scope = own_scope(state);
    if !is_new_scope(state, scope) {
        remove(state, slot);
        return Ok(());
    }
    let steps = state.posts.setup().steps;
    go_on_in(&mut state.slots, state.alloc, steps, slot, scope)?;
    begin_scope(state, scope, 1)?;
    state.mark(Mark::Entry {
        entry: Entry::Finish { task: id },
    })
}

/// The task in a slot opens a loop over some indices, whose range is the core's first unit, and waits for its end.
fn loop_over(
    state: &mut State,
    slot: u64,
    lo: u64,
    hi: u64,
    grain: u64,
    target: u64,
    args: Words,
) -> Result<(), AllocError>
    requires { lo < hi }
    ensures { OnOk result (let s = seen_of state.old in seen_of state.new ≡ acts_at s slot
        (λ task. loops_over s.me s.core.body slot task lo hi grain target args)) }
{
    let Some(task) = state.slots.get(slot) else {
        return Ok(());
    };
    let id = task.id;
    let scope = own_scope(state);
    if !is_new_scope(state, scope) {
        remove(state, slot);
        return Ok(());
    }
    let given = args.copy()?;
    begin_loop(state, scope, (hi - lo) as u128, slot)?;
    wait_in(&mut state.slots, slot, scope)?;
    state.work.push_first(Unit::Chunk {
        target,
        args,
        scope,
        origin: scope.core,
        owner: id,
        lo,
        hi,
        grain,
    })?;
    state.mark(Mark::Entry {
        entry: Entry::Loop {
            task: id,
            lo,
            hi,
            grain,
            target,
            args: given,
        },
    })
}

/// A loop over nothing opens no scope, and is passed at once.
fn loop_over_nothing(
    state: &mut State,
    slot: u64,
    lo: u64,
    hi: u64,
    grain: u64,
    target: u64,
    args: Words,
) -> Result<(), AllocError>
    ensures { OnOk result (let s = seen_of state.old in seen_of state.new ≡ acts_at s slot
        (λ task. loops_over_nothing s.machine s.core.body slot task lo hi grain target args)) }
{
    let Some(task) = state.slots.get(slot) else {
        return Ok(());
    };
    let id = task.id;
    state.resume(slot, Reply::nothing())?;
    state.mark(Mark::Entry {
        entry: Entry::Loop {
            task: id,
            lo,
            hi,
            grain,
            target,
            args,
        },
    })?;
    state.mark(Mark::Entry {
        entry: Entry::Pass { task: id },
    })
}

/// The task in a slot opens a loop.
pub fn open_loop(
    state: &mut State,
    slot: u64,
    lo: u64,
    hi: u64,
    grain: u64,
    target: u64,
    args: Words,
) -> Result<(), AllocError>
    ensures { OnOk result (let s = seen_of state.old in seen_of state.new ≡ acts_at s slot
        (λ task. loops s.machine s.me s.core.body slot task lo hi grain target args)) }
{
    if lo < hi {
        loop_over(state, slot, lo, hi, grain, target, args)
    } else {
        loop_over_nothing(state, slot, lo, hi, grain, target, args)
    }
}

/// Whether a scope is counted here, its master is here with an active core, and nobody waits there.
fn can_arrive(state: &State, scope: ScopeId) -> bool
    ensures { result ≡ can_arrive (seen_of state.now).core.body scope }
{
    let counts = match state.counts.count(scope) {
        Some(tasks) => 1 <= tasks,
        None => false,
    };
    let leaves = match state.masters.active(scope) {
        Some(active) => 0 < active,
        None => false,
    };
    counts && leaves && !state.masters.waited(scope)
}

/// The core's count is less by one, and the task in the slot waits at the master. Answers whether tasks are left.
#[tactic(auto, using(crate::proofs::Waiters::when_arriving))]
fn step_back(state: &mut State, scope: ScopeId, slot: u64) -> LocalLeft
    requires { can_arrive (seen_of state.old).core.body scope ≡ true }
    ensures left { result ≡ left_of ((seen_of state.old).core.body.scopes.counts scope) 1 }
    ensures arrived { let s = seen_of state.old in
        seen_of state.new ≡ with_body s (arrived s.core.body scope slot) }
    ensures leaves { can_leave ((seen_of state.new).core.body.scopes.masters scope) ≡ true }
{
    let left = state.counts.complete(scope, 1);
    state.masters.wait(scope, Waiter::Task { slot });
    left
}

/// This core leaves the scope: the task in the slot waits for others that are active, or passes.
fn arrive_last(state: &mut State, slot: u64, scope: ScopeId) -> Result<(), AllocError>
    requires { can_leave ((seen_of state.old).core.body.scopes.masters scope) ≡ true }
    ensures { OnOk result (let s = seen_of state.old in seen_of state.new ≡ acts_at s slot
        (λ task. arrives_last s.machine s.core.body slot task scope
        (release_of (released (s.core.body.scopes.masters scope))))) }
{
    if state.slots.get(slot).is_none() {
        return Ok(());
    }
    match state.masters.leave(scope) {
        Release::Held => {
            wait(state, slot, Waits::Scope { scope });
            Ok(())
        }
        Release::Released { .. } => state.pass(slot),
    }
}

/// The task in a slot arrives at the end of this scope.
fn arrive_in(state: &mut State, slot: u64, scope: ScopeId) -> Result<(), AllocError>
    ensures { OnOk result (let s = seen_of state.old in seen_of state.new
        ≡ acts_at s slot (λ task. arrives_in s.machine s.core.body slot task scope)) }
{
    if state.slots.get(slot).is_none() {
        return Ok(());
    }
    if !can_arrive(state, scope) {
        remove(state, slot);
        return Ok(());
    }
    match step_back(state, scope, slot) {
        LocalLeft::More => {
            wait(state, slot, Waits::Scope { scope });
            Ok(())
        }
        LocalLeft::Zero => arrive_last(state, slot, scope),
    }
}

/// The task in a slot arrives at the end of its innermost finish.
pub fn arrive(state: &mut State, slot: u64) -> Result<(), AllocError>
    ensures { OnOk result (let s = seen_of state.old in seen_of state.new
        ≡ acts_at s slot (λ task. arrives s.machine s.core.body slot task task.opened)) }
{
    let Some(task) = state.slots.get(slot) else {
        return Ok(());
    };
    match task.opened() {
        Some(scope) => arrive_in(state, slot, scope),
        None => {
            remove(state, slot);
            Ok(())
        }
    }
}

/// The task in a slot ends, and the core that counts it is told.
pub fn end(state: &mut State, slot: u64) -> Result<(), AllocError>
    ensures { OnOk result (let s = seen_of state.old in seen_of state.new
        ≡ acts_at s slot (λ task. ends s.machine s.core.body slot task)) }
{
    let Some(task) = state.slots.get(slot) else {
        return Ok(());
    };
    let (id, scope, origin) = (task.id, task.scope, task.origin);
    state.slots.remove(slot);
    if !is_core(state, origin) {
        return Ok(());
    }
    state.mark(Mark::Entry {
        entry: Entry::End { task: id },
    })?;
    state.send(origin, Msg::Complete { scope, count: 1 })
}

//! A unit of work is taken up.
ghost use Rattle.std.specs.Prelude.{◌≡◌, ◌<◌, ◌∷◌, [], IfOk, None, OnOk, Some, true};
ghost use Rattle.gr_machine.specs.Events.{are_free, slot_of};
ghost use Rattle.gr_machine.specs.Machines.{has_task};
ghost use Rattle.gr_machine.specs.Runs.{begins, first_unit, is_sound, run_unit, slots_for, slots_of, starts, taken_up, with_rest};
ghost use Rattle.gr_courses.specs.Courses.{ran_from};
ghost use Rattle.gr_courses.specs.Seen.{does_to, with_body};
ghost use Rattle.gr_runs.specs.RunWords.{slots_in};
ghost use Rattle.gr_state.specs.StateView.{seen_of};

use gr_lang::{Entry, TaskId, Words};
use gr_machine::Mark;
use gr_msg::{ScopeId, Unit};
use gr_state::State;
use std::alloc::{AllocError, Global};

/// Whether there is a task of this number with so many parameters.
fn has_task(state: &State, target: u64, count: u64) -> bool
    ensures { result ≡ has_task (seen_of state.now).machine target count }
{
    gr_objects::has_task(state.slots.code(), target, count)
}

/// Whether a unit may be taken up: there is such a task with so many parameters, and a chunk has indices and a grain
/// of at least 1.
fn is_sound(state: &State, unit: &Unit) -> bool
    ensures { result ≡ is_sound (seen_of state.now).machine unit.now }
{
    match unit {
        Unit::Single { target, args, .. } => has_task(state, *target, args.len() as u64),
        Unit::Chunk {
            target,
            args,
            lo,
            hi,
            grain,
            ..
        } => {
            let count = args.as_slice().len() as u64 + 1;
            has_task(state, *target, count) && lo < hi && 0 < *grain
        }
    }
}

/// A task that hasn't started is ready in a slot that was free; it answers the slot.
fn start(
    state: &mut State,
    target: u64,
    args: &[u64],
    scope: ScopeId,
    origin: u64,
    id: TaskId,
) -> Result<u64, AllocError>
    ensures free { IfOk result (λ slot.
        (seen_of state.old).core.body.tasks.slots slot ≡ None) }
    ensures started { IfOk result (λ slot. let s = seen_of state.old in seen_of state.new
        ≡ with_body s (starts s.machine s.core.body slot target args.now scope origin id).body) }
{
    let steps = state.posts.setup().steps;
    state
        .slots
        .plant(state.alloc, steps, target, args, id, scope, origin)
}

/// The indices of a chunk that are left are the core's first unit, if there are any.
fn put_rest(
    state: &mut State,
    target: u64,
    args: Words,
    scope: ScopeId,
    origin: u64,
    owner: TaskId,
    lo: u64,
    hi: u64,
    grain: u64,
) -> Result<(), AllocError>
    ensures { OnOk result (let s = seen_of state.old in seen_of state.new ≡ with_body s
        (with_rest s.core.body target args scope origin owner lo hi grain)) }
{
    if lo < hi {
        state.work.push_first(Unit::Chunk {
            target,
            args,
            scope,
            origin,
            owner,
            lo,
            hi,
            grain,
        })
    } else {
        Ok(())
    }
}

/// These words after a first one.
fn with_first(alloc: Global, first: u64, rest: &[u64]) -> Result<Words, AllocError>
    ensures { IfOk result (λ words. words ≡ first ∷ rest.now) }
{
    let mut words = Vec::new(alloc);
    words.push(first)?;
    words.extend_from_slice(rest)?;
    Ok(Words::from_vec(words))
}

/// The first index of a chunk begins as a new task, which is ready in a slot that was free; it answers the slot.
fn begin(
    state: &mut State,
    target: u64,
    args: Words,
    scope: ScopeId,
    origin: u64,
    owner: TaskId,
    lo: u64,
    hi: u64,
    grain: u64,
) -> Result<u64, AllocError>
    requires { lo < hi }
    ensures free { IfOk result (λ slot.
        (seen_of state.old).core.body.tasks.slots slot ≡ None) }
    ensures begun { IfOk result (λ slot. let s = seen_of state.old in seen_of state.new ≡ does_to s
        (Some (begins s.machine s.me s.core.body slot target args scope origin owner lo hi grain))) }
{
    let core = state.posts.me();
    let number = state.slots.number()?;
    let child = TaskId { core, number };
    let given = with_first(state.alloc, lo, args.as_slice())?;
    let slot = start(state, target, given.as_slice(), scope, origin, child)?;
    put_rest(state, target, args, scope, origin, owner, lo + 1, hi, grain)?;
    state.mark(Mark::Entry {
        entry: Entry::Begin {
            owner,
            index: lo,
            child,
        },
    })?;
    Ok(slot)
}

/// A chunk of more indices than its grain is split; of any other the first index begins; a single task starts. It
/// answers the slot that was taken, if one was.
fn take_up(state: &mut State, unit: Unit) -> Result<Option<u64>, AllocError>
    requires { is_sound (seen_of state.old).machine unit ≡ true }
    ensures slots { IfOk result (λ slot.
        are_free (seen_of state.old).core.body (slots_of unit) (slots_in slot) ≡ true) }
    ensures taken { IfOk result (λ slot. let s = seen_of state.old in seen_of state.new ≡ does_to s
        (Some (taken_up s.machine s.me s.core.body (slot_of (slots_in slot)) unit))) }
{
    match unit {
        Unit::Single {
            target,
            args,
            scope,
            origin,
            id,
        } => {
            let slot = start(state, target, args.as_slice(), scope, origin, id)?;
            Ok(Some(slot))
        }
        Unit::Chunk {
            target,
            args,
            scope,
            origin,
            owner,
            lo,
            hi,
            grain,
        } => {
            if grain < hi - lo {
                state.work.split(Unit::Chunk {
                    target,
                    args,
                    scope,
                    origin,
                    owner,
                    lo,
                    hi,
                    grain,
                })?;
                Ok(None)
            } else {
                let slot = begin(state, target, args, scope, origin, owner, lo, hi, grain)?;
                Ok(Some(slot))
            }
        }
    }
}

/// A unit is taken up, where it may be; it answers the slot that was taken, if one was.
fn run_unit(state: &mut State, unit: Unit) -> Result<Option<u64>, AllocError>
    ensures slots { IfOk result (λ slot. let s = seen_of state.old in
        are_free s.core.body (slots_for s.machine (Some unit)) (slots_in slot) ≡ true) }
    ensures ran { IfOk result (λ slot. let s = seen_of state.old in seen_of state.new ≡ does_to s
        (run_unit s.machine s.me s.core.body (slot_of (slots_in slot)) (Some unit))) }
{
    if is_sound(state, &unit) {
        take_up(state, unit)
    } else {
        Ok(None)
    }
}

/// The next unit is taken up, where there is one that may be; it answers the slot that was taken, if one was.
pub fn run_next(state: &mut State) -> Result<Option<u64>, AllocError>
    ensures slots { IfOk result (λ slot. let s = seen_of state.old in are_free s.core.body
        (slots_for s.machine (first_unit s.core.body)) (slots_in slot) ≡ true) }
    ensures ran { IfOk result (λ slot. let s = seen_of state.old in seen_of state.new
        ≡ ran_from s (slot_of (slots_in slot)) []) }
{
    match state.work.next() {
        Some(unit) => run_unit(state, unit),
        None => Ok(None),
    }
}

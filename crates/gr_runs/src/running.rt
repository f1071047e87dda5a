//! The event Run.
ghost use Rattle.std.specs.Prelude.{◌≡◌, IfOk, OnOk, slice_get, true};
ghost use Rattle.gr_machine.specs.declared.event.Event.TheVariants as event;
ghost use Rattle.gr_machine.specs.Events.{are_free, slot_of, slots_needed};
ghost use Rattle.gr_machine.specs.Runs.{run_slot, without_ready};
ghost use Rattle.gr_courses.specs.Courses.{gives_to, ran_from};
ghost use Rattle.gr_courses.specs.Seen.{does_to, with_body};
ghost use Rattle.gr_runs.specs.RunWords.{slots_in};
ghost use Rattle.gr_state.specs.StateView.{seen_of};

use crate::calls::call;
use crate::scopes::{arrive, end, finish, open_loop};
use crate::spawns::{spawn, trap};
use crate::units::run_next;
use gr_lang::{Action, Words};
use gr_state::State;
use std::alloc::{AllocError, Global};

/// The task in a slot makes its action, where there is one.
fn act(state: &mut State, slot: u64) -> Result<(), AllocError>
    ensures { OnOk result (let s = seen_of state.old in seen_of state.new ≡ does_to s
        (run_slot s.machine s.me s.core.body slot (s.core.body.tasks.slots slot))) }
{
    let Some(task) = state.slots.get(slot) else {
        return Ok(());
    };
    match &task.action {
        Action::Call { op } => {
            let op = *op;
            call(state, slot, op)
        }
        Action::Spawn { how, target, args } => {
            let (how, target) = (*how, *target);
            let args = args.copy()?;
            spawn(state, slot, how, target, args)
        }
        Action::Finish => finish(state, slot),
        Action::Arrive => arrive(state, slot),
        Action::Loop {
            lo,
            hi,
            grain,
            target,
            args,
        } => {
            let (lo, hi, grain, target) = (*lo, *hi, *grain, *target);
            let args = args.copy()?;
            open_loop(state, slot, lo, hi, grain, target, args)
        }
        Action::End => end(state, slot),
        Action::Trap { kind } => {
            let kind = *kind;
            trap(state, slot, kind)
        }
    }
}

/// Takes the first ready slot; none where no slot is ready.
fn next_ready(state: &mut State) -> Option<u64>
    ensures slot { result ≡ slice_get (seen_of state.old).core.body.tasks.ready 0 }
    ensures rest { let s = seen_of state.old in
        seen_of state.new ≡ with_body s (without_ready s.core.body) }
{
    state.slots.next_ready()
}

/// The first ready task acts, or where none is ready the next unit is taken up; it answers the slot that was taken,
/// if one was.
#[tactic(auto, using(crate::proofs::Readies::at_ready))]
fn run_first(state: &mut State) -> Result<Option<u64>, AllocError>
    ensures slots { IfOk result (λ slot. let s = seen_of state.old in
        are_free s.core.body (slots_needed s.machine s.core event.Run) (slots_in slot) ≡ true) }
    ensures ran { IfOk result (λ slot. let s = seen_of state.old in seen_of state.new
        ≡ ran_from s (slot_of (slots_in slot)) s.core.body.tasks.ready) }
{
    if state.slots.none_ready() {
        return run_next(state);
    }
    if let Some(slot) = next_ready(state) {
        act(state, slot)?;
    }
    Ok(None)
}

/// The slot of a new task, where there is one.
fn taken(alloc: Global, slot: Option<u64>) -> Result<Words, AllocError>
    ensures { IfOk result (λ slots. slots ≡ slots_in slot) }
{
    let mut slots = Words::new(alloc);
    if let Some(slot) = slot {
        slots.push(slot)?;
    }
    Ok(slots)
}

/// The first ready task acts, or where none is ready the next unit is taken up; then units are given. Answers the
/// slots that new tasks took. It is an error where memory is wanting, where the numbers of tasks or scopes run out,
/// where a message fits no packet, or where a call is on an object that no program can have.
pub fn run(state: &mut State) -> Result<Words, AllocError>
    ensures slots { IfOk result (λ slots. let s = seen_of state.old in
        are_free s.core.body (slots_needed s.machine s.core event.Run) slots ≡ true) }
    ensures ran { IfOk result (λ slots. let s = seen_of state.old in seen_of state.new
        ≡ gives_to (ran_from s (slot_of slots) s.core.body.tasks.ready)) }
{
    let slot = run_first(state)?;
    let slots = taken(state.alloc, slot)?;
    state.give()?;
    Ok(slots)
}

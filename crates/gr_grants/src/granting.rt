//! A turn at a vector begins.
ghost use Rattle.std.specs.Prelude.{◌≡◌, ◌+◌, ◌^◌, OnOk, length, nat_lt};
ghost use Rattle.gr_vector.specs.declared.kind.Kind.TheVariants as kind;
ghost use Rattle.gr_vector.specs.Groups.{calls_of};
ghost use Rattle.gr_machine.specs.Slots.{awaits_turn, calls_await};
ghost use Rattle.gr_machine.specs.TurnServes.{can_begin, get_sends, put_sends, turn_granted};
ghost use Rattle.gr_courses.specs.Seen.{does_to, sends_to};
ghost use Rattle.gr_state.specs.StateView.{seen_of};

use gr_lang::{Op, WaitingCall};
use gr_msg::Msg;
use gr_state::State;
use gr_vector::{Ends, plan};
use std::alloc::AllocError;

/// Whether the task of each of these calls waits for a turn at the vector.
fn all_wait(state: &State, vector: u64, calls: &[WaitingCall]) -> bool
    ensures { result ≡ calls_await (awaits_turn vector) (seen_of state.now).core.body calls.now }
{
    for call in calls {
        if !state.slots.awaits_turn(call.slot, call.id, vector) {
            return false;
        }
    }
    true
}

/// How many of these calls push a word.
fn pushes(calls: &[WaitingCall]) -> u64
    ensures { result ≡ length (calls_of kind.Push calls.now) }
{
    let mut count = 0;
    for call in calls {
        if matches!(call.op, Op::Push { .. }) {
            count += 1;
        }
    }
    count
}

/// Whether the position after this one and so many more fits a word.
fn fits(tail: u64, count: u64) -> bool
    ensures { result ≡ nat_lt (tail + count) (2 ^ 64) }
{
    tail.checked_add(count).is_some()
}

/// Whether the calls of a group wait for a turn at the vector, and their positions fit a word.
fn can_begin(state: &State, vector: u64, head: u64, tail: u64, calls: &[WaitingCall]) -> bool
    ensures { result ≡ can_begin (seen_of state.now).core.body vector head tail calls.now }
{
    all_wait(state, vector, calls) && fits(tail, pushes(calls)) && head <= tail
}

/// Words are put at the homes of their positions.
fn send_puts(state: &mut State, vector: u64, puts: &[(u64, u64)]) -> Result<(), AllocError>
    ensures { OnOk result (let s = seen_of state.old in seen_of state.new
        ≡ sends_to s (put_sends s.machine vector puts.now)) }
{
    for put in puts {
        let (position, word) = *put;
        let home = state.posts.home(position);
        state.send(
            home,
            Msg::ElemPut {
                vector,
                position,
                word,
            },
        )?;
    }
    Ok(())
}

/// Words are got from the homes of their positions.
fn send_gets(state: &mut State, vector: u64, gets: &[u64]) -> Result<(), AllocError>
    ensures { OnOk result (let s = seen_of state.old in seen_of state.new
        ≡ sends_to s (get_sends s.machine vector gets.now)) }
{
    for position in gets {
        let home = state.posts.home(*position);
        state.send(
            home,
            Msg::ElemGet {
                vector,
                position: *position,
            },
        )?;
    }
    Ok(())
}

/// The oldest group at a vector has the turn, where this core has none there already: the words of its plan are put at
/// the homes of their positions, and got from there. The vector's words stand from this head to below this tail.
pub fn grant(state: &mut State, vector: u64, head: u64, tail: u64) -> Result<(), AllocError>
    ensures { OnOk result (let s = seen_of state.old in let body = s.core.body in seen_of state.new
        ≡ does_to s (turn_granted s.machine body vector head tail (body.vectors.vectors vector))) }
{
    let Some(there) = state.vectors.get(vector) else {
        return Ok(());
    };
    if there.turn().is_some() {
        return Ok(());
    }
    let Some(calls) = there.first_group() else {
        return Ok(());
    };
    if !can_begin(state, vector, head, tail, calls.as_slice()) {
        return Ok(());
    }
    let plan = plan(state.alloc, calls, head, tail)?;
    state
        .vectors
        .begin(state.alloc, vector, Ends { head, tail }, &plan)?;
    send_puts(state, vector, plan.puts.as_slice())?;
    send_gets(state, vector, plan.gets.as_slice())
}

//! The calls that wait on an object go off.
ghost use Rattle.std.specs.Prelude.{◌≡◌, OnOk, Some};
ghost use Rattle.gr_machine.specs.Closes.{closes, closes_combiner};
ghost use Rattle.gr_courses.specs.Seen.{does_to};
ghost use Rattle.gr_state.specs.StateView.{seen_of};

use crate::batches::send_batches;
use gr_machine::Waits;
use gr_msg::Msg;
use gr_reduce::Reducers;
use gr_state::State;
use std::alloc::AllocError;

/// The calls that wait on an object that is no vector go off, as one batch for each key. Those that don't fold stay.
fn close_combiner(state: &mut State, object: u64, reducers: &Reducers) -> Result<(), AllocError>
    ensures { OnOk result (let s = seen_of state.old in seen_of state.new ≡ does_to s (Some
        (closes_combiner s.machine s.core.body object (s.core.body.batches.combiners object)))) }
{
    let batches = state.combining.close(state.alloc, object, reducers)?;
    send_batches(state, object, batches)
}

/// The calls that wait on an object go off. At a vector they are the newest group, for which a turn is asked; elsewhere
/// they are batches. It is an error where no object can have this number.
pub fn close(state: &mut State, object: u64, reducers: &Reducers) -> Result<(), AllocError>
    ensures { OnOk result (let s = seen_of state.old in seen_of state.new
        ≡ does_to s (Some (closes s.machine s.core.body object))) }
{
    if state.vectors.get(object).is_none() {
        return close_combiner(state, object, reducers);
    }
    let group = state.vectors.close(state.alloc, object)?;
    state.rewait_all(Waits::Turn { vector: object }, group.as_slice());
    let master = object % state.posts.setup().cores;
    state.send(master, Msg::Turn { vector: object })
}

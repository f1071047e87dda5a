//! A turn at a vector ends.
ghost use Rattle.std.specs.Prelude.{◌≡◌, OnOk};
ghost use Rattle.gr_machine.specs.Slots.{resumed_all};
ghost use Rattle.gr_machine.specs.TurnServes.{call_marks, settled_vector, wakes};
ghost use Rattle.gr_courses.specs.Seen.{does_to, marks_to, with_body};
ghost use Rattle.gr_state.specs.StateView.{seen_of};

use gr_lang::{Entry, Reply, WaitingCall};
use gr_machine::Mark;
use gr_msg::Msg;
use gr_state::State;
use std::alloc::AllocError;

/// The tasks of calls go on with their replies, and are ready, one after another.
fn resume_all(state: &mut State, answers: &[(WaitingCall, Reply)]) -> Result<(), AllocError>
    ensures { OnOk result (let s = seen_of state.old in seen_of state.new
        ≡ with_body s (resumed_all s.machine s.core.body (wakes answers.now))) }
{
    for answer in answers {
        let (call, reply) = *answer;
        state.resume(call.slot, reply)?;
    }
    Ok(())
}

/// Calls are marked with their replies, one after another.
fn mark_all(state: &mut State, answers: &[(WaitingCall, Reply)]) -> Result<(), AllocError>
    ensures { OnOk result (seen_of state.new
        ≡ marks_to (seen_of state.old) (call_marks answers.now)) }
{
    for answer in answers {
        let (call, reply) = *answer;
        state.mark(Mark::Entry {
            entry: Entry::Call {
                task: call.id,
                op: call.op,
                reply,
            },
        })?;
    }
    Ok(())
}

/// A turn at a vector of which nothing is left is finished: its calls are marked in order, their tasks are ready, its
/// group is gone, and the master is told where the vector's words stand now.
pub fn settle(state: &mut State, vector: u64) -> Result<(), AllocError>
    ensures { OnOk result (let s = seen_of state.old in let body = s.core.body in seen_of state.new
        ≡ does_to s (settled_vector s.machine body vector (body.vectors.vectors vector))) }
{
    let Some(there) = state.vectors.get(vector) else {
        return Ok(());
    };
    let Some(turn) = there.turn() else {
        return Ok(());
    };
    if turn.left() != 0 {
        return Ok(());
    }
    let answers = turn.replies(state.alloc)?;
    let ends = turn.ends_after();
    let master = vector % state.posts.setup().cores;
    state.vectors.finish(vector);
    resume_all(state, answers.as_slice())?;
    mark_all(state, answers.as_slice())?;
    state.send(
        master,
        Msg::Done {
            vector,
            head: ends.head,
            tail: ends.tail,
        },
    )
}

//! The turns at the master of a vector.
ghost use Rattle.std.specs.Prelude.{◌≡◌, OnOk};
ghost use Rattle.gr_machine.specs.TurnServes.{grants, turn_asked, turn_done};
ghost use Rattle.gr_courses.specs.Seen.{does_to, sends_to};
ghost use Rattle.gr_state.specs.StateView.{seen_of};

use gr_msg::Msg;
use gr_state::State;
use gr_vector::Granted;
use std::alloc::AllocError;

/// The turn that is granted, if one is, is sent to its core.
fn send_grant(state: &mut State, vector: u64, grant: Option<Granted>) -> Result<(), AllocError>
    ensures { OnOk result (seen_of state.new
        ≡ sends_to (seen_of state.old) (grants vector grant)) }
{
    match grant {
        Some(Granted { core, head, tail }) => state.send(core, Msg::Grant { vector, head, tail }),
        None => Ok(()),
    }
}

/// A core asks for a turn at a vector: it has it at once where none is out, and else waits, the last.
pub fn ask(state: &mut State, from: u64, vector: u64) -> Result<(), AllocError>
    ensures { OnOk result (let s = seen_of state.old in let body = s.core.body in seen_of state.new
        ≡ does_to s (turn_asked body from vector (body.vectors.masters vector))) }
{
    let grant = state.vectors.ask(vector, from)?;
    send_grant(state, vector, grant)
}

/// The turn that is out at a vector has ended, with its words from this head to below this tail, and the next core that
/// waits has one.
pub fn done(state: &mut State, vector: u64, head: u64, tail: u64) -> Result<(), AllocError>
    ensures { OnOk result (let s = seen_of state.old in let body = s.core.body in seen_of state.new
        ≡ does_to s (turn_done body vector head tail (body.vectors.masters vector))) }
{
    let Some(master) = state.vectors.master(vector) else {
        return Ok(());
    };
    if !master.is_out() {
        return Ok(());
    }
    let grant = state.vectors.done(vector, head, tail);
    send_grant(state, vector, grant)
}

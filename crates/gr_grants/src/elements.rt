//! The words of turns, at the homes of their positions and at the core that has the turn.
ghost use Rattle.std.specs.Prelude.{◌≡◌, OnOk};
ghost use Rattle.gr_machine.specs.TurnServes.{element_acked, element_fetched, element_stored};
ghost use Rattle.gr_courses.specs.Seen.{does_to};
ghost use Rattle.gr_state.specs.StateView.{seen_of};

use gr_msg::Msg;
use gr_state::State;
use std::alloc::AllocError;

/// A word of a turn of another core, or of this one, is put at an empty position of a vector, and that is answered.
pub fn store(
    state: &mut State,
    from: u64,
    vector: u64,
    position: u64,
    word: u64,
) -> Result<(), AllocError>
    ensures { OnOk result (let s = seen_of state.old in let body = s.core.body in seen_of state.new
        ≡ does_to s (element_stored body from vector position word (body.vectors.vectors vector))) }
{
    let Some(there) = state.vectors.get(vector) else {
        return Ok(());
    };
    if there.word(position).is_some() {
        return Ok(());
    }
    state.vectors.put(vector, position, word)?;
    state.send(
        from,
        Msg::ElemAck {
            vector,
            position,
            got: None,
        },
    )
}

/// The word at a position of a vector is taken out, and sent to the core that gets it.
pub fn fetch(state: &mut State, from: u64, vector: u64, position: u64) -> Result<(), AllocError>
    ensures { OnOk result (let s = seen_of state.old in let body = s.core.body in seen_of state.new
        ≡ does_to s (element_fetched body from vector position (body.vectors.vectors vector))) }
{
    let Some(there) = state.vectors.get(vector) else {
        return Ok(());
    };
    let Some(word) = there.word(position) else {
        return Ok(());
    };
    state.vectors.take(vector, position);
    state.send(
        from,
        Msg::ElemAck {
            vector,
            position,
            got: Some(word),
        },
    )
}

/// A put of the turn at a vector, or a get by the word that was got, is answered, once.
pub fn answer(
    state: &mut State,
    vector: u64,
    position: u64,
    got: Option<u64>,
) -> Result<(), AllocError>
    ensures { OnOk result (let s = seen_of state.old in let body = s.core.body in seen_of state.new
        ≡ does_to s (element_acked body vector position got (body.vectors.vectors vector))) }
{
    let Some(there) = state.vectors.get(vector) else {
        return Ok(());
    };
    let Some(turn) = there.turn() else {
        return Ok(());
    };
    match got {
        Some(word) if turn.awaits_get(position) => state.vectors.answer_get(vector, position, word),
        None if turn.awaits_put(position) => {
            state.vectors.answer_put(vector, position);
            Ok(())
        }
        _ => Ok(()),
    }
}

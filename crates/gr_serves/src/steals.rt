//! Units that are asked for.
ghost use Rattle.std.specs.Prelude.{◌≡◌, OnOk, Some};
ghost use Rattle.gr_machine.specs.ScopeServes.{given, waits_here};
ghost use Rattle.gr_courses.specs.Seen.{does_to};
ghost use Rattle.gr_state.specs.StateView.{seen_of};

use gr_msg::Unit;
use gr_state::State;
use std::alloc::AllocError;

/// The core that asks waits here, the last.
pub fn wait(state: &mut State, from: u64) -> Result<(), AllocError>
    ensures { OnOk result (let s = seen_of state.old in seen_of state.new
        ≡ does_to s (Some (waits_here s.core.body from))) }
{
    state.steals.wait(from)
}

/// A unit that this core has asked for is its first, and it may ask again.
pub fn take(state: &mut State, from: u64, unit: Unit) -> Result<(), AllocError>
    ensures { OnOk result (let s = seen_of state.old in seen_of state.new
        ≡ does_to s (given s.core.body from unit)) }
{
    if state.steals.is_asked(from) {
        state.steals.set_asked(from, false)?;
        return state.work.push_first(unit);
    }
    Ok(())
}

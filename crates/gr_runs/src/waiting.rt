//! A task in a slot waits, or is removed.
ghost use Rattle.std.specs.Prelude.{◌≡◌};
ghost use Rattle.gr_machine.specs.Outcomes.{quietly};
ghost use Rattle.gr_machine.specs.Slots.{dropped, waiting};
ghost use Rattle.gr_courses.specs.Seen.{acts_at};
ghost use Rattle.gr_state.specs.StateView.{seen_of};

use gr_machine::Waits;
use gr_state::State;

/// The task in a slot waits for this from now on, where there is one.
pub fn wait(state: &mut State, slot: u64, reason: Waits)
    ensures { let s = seen_of state.old in seen_of state.new
        ≡ acts_at s slot (λ task. quietly (waiting s.core.body slot task reason)) }
{
    state.slots.wait(slot, reason);
}

/// The task in a slot is removed, where there is one: its action finds nothing to act on.
pub fn remove(state: &mut State, slot: u64)
    ensures { let s = seen_of state.old in seen_of state.new
        ≡ acts_at s slot (λ task. dropped s.core.body slot) }
{
    if state.slots.get(slot).is_some() {
        state.slots.remove(slot);
    }
}

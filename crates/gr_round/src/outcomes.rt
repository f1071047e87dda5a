//! How a run ends.
ghost use Rattle.std.specs.Prelude.{IfNone, IfSome};
ghost use Rattle.gr_round.specs.Outcomes.{AreGoing, Concluded, has_passed, is_trapped};
ghost use Rattle.gr_round.specs.RoundWords.{NoneOrFirst, TellsOf};

use gr_core::Core;

/// How a run ends.
#[derive(Debug, Clone, Copy, PartialEq, Eq)]
pub enum Outcome {
    /// A core has passed the root scope.
    Ended,
    /// None has, and a task is trapped.
    Trapped,
    /// Neither, and a clock has come to the limit of events: the first such core, with its clock.
    EventLimit { core: u64, clock: u64 },
    /// None of these, and no core can make another event.
    Stalled,
}

/// Whether some core has passed the root scope.
fn any_passed<'a>(cores: &[Core<'a>]) -> bool
    ensures { TellsOf has_passed cores.now result }
{
    for core in cores {
        if core.passed() {
            return true;
        }
    }
    false
}

/// Whether a task of some core is trapped.
fn any_trapped<'a>(cores: &[Core<'a>]) -> bool
    ensures { TellsOf is_trapped cores.now result }
{
    for core in cores {
        if core.trapped() {
            return true;
        }
    }
    false
}

/// The first core that is spent, with its clock.
fn first_spent<'a>(cores: &[Core<'a>]) -> Option<(u64, u64)>
    ensures { NoneOrFirst cores.now result }
{
    for number in 0..cores.len() {
        let core = &cores[number];
        if core.spent() {
            return Some((number as u64, core.clock()));
        }
    }
    None
}

/// How the run has ended; none where no core has passed the root scope, is trapped or is spent.
pub fn conclusion<'a>(cores: &[Core<'a>]) -> Option<Outcome>
    ensures some { IfSome result (λ outcome. Concluded outcome cores.now) }
    ensures none { IfNone result (AreGoing cores.now) }
{
    if any_passed(cores) {
        return Some(Outcome::Ended);
    }
    if any_trapped(cores) {
        return Some(Outcome::Trapped);
    }
    let (core, clock) = first_spent(cores)?;
    Some(Outcome::EventLimit { core, clock })
}

//! The run of a program on worker threads.
ghost use Rattle.std.specs.Prelude.{◌≡◌, ◌≤◌, IfOk, Some, is_some, true};
ghost use Rattle.gr_lang.specs.Histories.{legal};
ghost use Rattle.gr_machine.specs.Machines.{machine_of};
ghost use Rattle.gr_posts.specs.Posts.{IsSetup};
ghost use Rattle.gr_report.specs.Texts.{first_trap as first_trap_of};
ghost use Rattle.gr_runnable.specs.Runnable.{IsRunnable};
ghost use Rattle.gr_engine.specs.Ends.{IsEnding, ended_as, stalled};
ghost use Rattle.gr_engine.specs.EndingWords.{told_as};
ghost use Rattle.gr_engine.specs.Runs.{AreStuck, IsMachineRun};

use crate::ending::{Ending, Ran};
use crate::making::{Made, make};
use gr_accept::Accepted;
use gr_history::runs_agree;
use gr_machine::Setup;
use gr_memory::Contents;
use gr_reduce::Reducers;
use gr_report::{LimitAt, TrapAt, first_trap};
use gr_round::{Gate, Outcome};
use std::alloc::{AllocError, Global};
use std::thread::Threads;

/// How a run with this outcome ended. Where a task is trapped, its history has a trap.
fn ending(outcome: Outcome, gathered: Contents, trap: Option<TrapAt>) -> Ending
    requires { outcome ≡ Outcome.Trapped → is_some trap ≡ true }
    ensures { told_as outcome gathered trap ≡ Some result }
{
    match outcome {
        Outcome::Ended => Ending::Complete { contents: gathered },
        Outcome::Trapped => match trap {
            Some(trap) => Ending::Trapped { trap },
            None => unreachable!(),
        },
        Outcome::EventLimit { core, clock } => {
            let at = LimitAt { core, clock };
            Ending::Limited { at }
        }
        Outcome::Stalled => Ending::Stalled,
    }
}

/// What is left of a run that was made, and how it ended: where a task is trapped, its history has a trap.
fn told(made: Made) -> Ran
    requires { made.outcome ≡ Outcome.Trapped
        → is_some (first_trap_of made.world.history) ≡ true }
    ensures world { result.world ≡ made.world }
    ensures ending { told_as made.outcome made.gathered (first_trap_of made.world.history)
        ≡ Some result.ending }
{
    let Made {
        outcome,
        gathered,
        world,
    } = made;
    let trap = first_trap(world.history.as_slice());
    let ending = ending(outcome, gathered, trap);
    Ran { world, ending }
}

/// Runs a program on worker threads, as many as there are cores, in rounds in which each core makes at most so many
/// events. Whatever the threads do, the history of the run is one of the plain memory.
pub fn run_program<R: Threads + Sync, G: Gate>(
    rt: &R,
    alloc: Global,
    program: &Accepted,
    setup: Setup,
    slice: u64,
    reducers: &Reducers,
    gate: &G,
) -> Result<Ran, AllocError>
    requires setup { IsSetup setup }
    requires slice { 1 ≤ slice }
    requires runnable { IsRunnable program.now }
    ensures ran { IfOk result (λ ran. IsMachineRun setup program.now ran.world) }
    ensures legal { IfOk result (λ ran.
        legal program.now setup.cores setup.steps ran.world.history ≡ true) }
    ensures ends { IfOk result (λ ran.
        IsEnding ran.ending (ended_as setup program.now ran.world)) }
    ensures stuck { IfOk result (λ ran. ended_as setup program.now ran.world ≡ stalled
        → AreStuck (machine_of setup program.now) ran.world.cores) }
{
    let made = make(rt, alloc, program, setup, slice, reducers, gate)?;
    runs_agree();
    Ok(told(made))
}

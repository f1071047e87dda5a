//! A run on worker threads, up to what it leaves.
ghost use Rattle.std.specs.Prelude.{◌≡◌, ◌≤◌, IfOk};
ghost use Rattle.gr_code.specs.Shapes.{shapes_of};
ghost use Rattle.gr_posts.specs.Posts.{IsSetup};
ghost use Rattle.gr_report.specs.Gathered.{AreGathered};
ghost use Rattle.gr_engine.specs.EndingWords.{IsRunTo};

use crate::ending::WorldEnd;
use gr_accept::Accepted;
use gr_code::{Code, lower};
use gr_core::Core;
use gr_history::{contents, history};
use gr_machine::Setup;
use gr_memory::Contents;
use gr_reduce::Reducers;
use gr_round::{Gate, Outcome, run};
use gr_world::{finish, start};
use std::alloc::{AllocError, Global};
use std::thread::Threads;

/// A run that was made: its outcome, what the objects hold by the cores where it ended, and what is left of it.
#[derive(Drop)]
pub(crate) struct Made {
    pub outcome: Outcome,
    pub gathered: Contents,
    pub world: WorldEnd,
}

/// What the objects hold by the cores, where the root scope is passed; and else nothing.
fn gather<'a>(
    alloc: Global,
    code: &Code<'a>,
    outcome: Outcome,
    cores: &[Core<'a>],
) -> Result<Contents, AllocError>
    ensures { IfOk result (λ gathered. outcome ≡ Outcome.Ended
        → AreGathered cores.now 0 (shapes_of code.now.program) gathered) }
{
    match outcome {
        Outcome::Ended => contents(alloc, code, cores),
        _ => Ok(Contents::new(alloc)),
    }
}

/// Makes a run of code on worker threads.
#[tactic(auto, using(crate::proofs::Leading::leads))]
fn run_code<R: Threads + Sync, G: Gate>(
    rt: &R,
    alloc: Global,
    code: &Code,
    setup: Setup,
    slice: u64,
    reducers: &Reducers,
    gate: &G,
) -> Result<Made, AllocError>
    requires setup { IsSetup setup }
    requires slice { 1 ≤ slice }
    ensures { IfOk result (λ made.
        IsRunTo setup code.now.program made.outcome made.gathered made.world) }
{
    let cores = start(alloc, setup, code)?;
    let ran = run(rt, cores, reducers, slice, gate)?;
    let outcome = ran.outcome;
    let gathered = gather(alloc, code, outcome, ran.cores.as_slice())?;
    let ends = finish(alloc, ran.cores)?;
    let history = history(alloc, &ends, reducers)?;
    Ok(Made {
        outcome,
        gathered,
        world: WorldEnd {
            cores: ends,
            history,
        },
    })
}

/// Makes a run of a program on worker threads.
pub(crate) fn make<R: Threads + Sync, G: Gate>(
    rt: &R,
    alloc: Global,
    program: &Accepted,
    setup: Setup,
    slice: u64,
    reducers: &Reducers,
    gate: &G,
) -> Result<Made, AllocError>
    requires setup { IsSetup setup }
    requires slice { 1 ≤ slice }
    ensures { IfOk result (λ made.
        IsRunTo setup program.now made.outcome made.gathered made.world) }
{
    let code = lower(alloc, program)?;
    let made = run_code(rt, alloc, &code, setup, slice, reducers, gate)?;
    Ok(made)
}

//! A run: rounds, until it has an outcome.
ghost use Rattle.std.specs.Prelude.{◌≡◌, ◌≤◌, IfOk};
ghost use Rattle.gr_machine.specs.Machines.{Machine};
ghost use Rattle.gr_round.specs.Outcomes.{Concluded};
ghost use Rattle.gr_round.specs.Rounds.{AllWentOn};
ghost use Rattle.gr_round.specs.RoundWords.{clocks};
ghost use Rattle.gr_world.specs.Worlds.{AreCores, AreOfOneRun, HaveAllMet};

use crate::outcomes::{Outcome, conclusion};
use crate::rounds::round;
use gr_core::Core;
use gr_reduce::Reducers;
use gr_slice::Gate;
use gr_world::meet_all;
use std::alloc::AllocError;
use std::thread::Threads;

/// The cores of a run that has ended, and how it has.
#[derive(Drop)]
pub struct Ran<'a> {
    pub outcome: Outcome,
    pub cores: Vec<Core<'a>>,
}

/// The sum of the clocks.
fn total<'a>(cores: &[Core<'a>]) -> u128
    ensures { result ≡ clocks cores.now }
{
    let mut total = 0;
    for core in cores {
        total += u128::from(core.clock());
    }
    total
}

/// Runs the cores: all of them meet, and then there are rounds of slices of so many events, after each of which all
/// meet again. It ends where after a meeting some core has passed the root scope, is trapped or is spent, and else with
/// the first round in which no core has made an event.
pub fn run<'a, R: Threads + Sync, G: Gate>(
    rt: &R,
    cores: Vec<Core<'a>>,
    reducers: &Reducers,
    slice: u64,
    gate: &G,
) -> Result<Ran<'a>, AllocError>
    requires slice { 1 ≤ slice }
    requires cores { AreOfOneRun cores.items }
    ensures cores { (machine : Machine) → AreCores machine cores.entry.items
        → IfOk result (λ ran. AreCores machine ran.cores.items) }
    ensures went { IfOk result (λ ran. AllWentOn cores.entry.items ran.cores.items) }
    ensures met { IfOk result (λ ran. HaveAllMet ran.cores.items) }
    ensures outcome { IfOk result (λ ran. Concluded ran.outcome ran.cores.items) }
{
    let mut cores = cores;
    meet_all(&mut cores);
    let mut before = total(&cores);
    let mut number: u64 = 0;
    'rounds: loop {
        if let Some(outcome) = conclusion(&cores) {
            return Ok(Ran { outcome, cores });
        }
        let mut next = round(rt, cores, reducers, slice, number, gate)?;
        let after = total(&next);
        if after <= before {
            return Ok(Ran {
                outcome: Outcome::Stalled,
                cores: next,
            });
        }
        meet_all(&mut next);
        cores = next;
        before = after;
        number = number.checked_add(1).ok_or(AllocError)?;
    }
}

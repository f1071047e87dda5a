//! The cores of a run.
ghost use Rattle.std.specs.Prelude.{◌≡◌, IfOk, true};
ghost use Rattle.std.specs.Coded.{codes, coded_ℕ};
ghost use Rattle.std.specs.FinMap as fin;
ghost use Rattle.std.specs.FinSet as set;
ghost use Rattle.std.specs.Ordering.{nat_cmp};
ghost use Rattle.gr_syntax.specs.contracts.syntax.Stmt as stmt;
ghost use Rattle.gr_posts.specs.Posts.{IsSetup};
ghost use Rattle.gr_cores.specs.WorldWords.{AreAsBefore, AreBoth-prop, IsOneRun, MayMake};

use gr_addr::MAX_BLOCK;
use gr_code::Code;
use gr_core::{Core, Stepped};
use gr_machine::{CoreEnds, Event, Setup};
use gr_msg::{MAX_CLOCK, MAX_MESSAGES};
use gr_reduce::Reducers;
use gr_syntax::MAX_CORES;
use gr_world::meet_all;
use std::alloc::{AllocError, Global};
use std::mem;

/// The cores of a run, in the order of their numbers; none where the last event found no memory.
#[derive(Drop)]
pub struct World<'a> {
    cores: Vec<Core<'a>>,
    ghost run: { IsOneRun cores.items } by { Prim.hlevel (AreBoth-prop, codes, stmt.the_row.coded, set.code {R = nat_cmp} coded_ℕ, fin.code {R = nat_cmp} coded_ℕ coded_ℕ) },
}

/// Whether the numbers of a run are in their ranges.
pub fn is_setup(setup: Setup) -> bool
    ensures { result ≡ true → IsSetup setup }
{
    1 <= setup.cores
        && setup.cores <= MAX_CORES
        && 1 <= setup.block
        && setup.block <= MAX_BLOCK
        && 1 <= setup.limit
        && setup.limit <= MAX_MESSAGES as u64
        && setup.events <= MAX_CLOCK
}

/// What became of an event that a core was to make.
#[derive(Clone, Copy, PartialEq, Eq)]
pub enum Made {
    Done,
    /// There was no packet to take, or no room for one that was to be shipped.
    NotDone,
    NotEnabled,
}

/// Whether there is a core of this number, and it may make an event.
fn may_make(cores: &[Core], at: usize, event: Event) -> bool
    ensures { result ≡ true → MayMake at event cores.now }
{
    match cores.get(at) {
        Some(core) => core.enabled(event),
        None => false,
    }
}

/// The cores after one of them has made an event that it may make, and whether that was done.
fn step_at<'a>(
    cores: Vec<Core<'a>>,
    at: usize,
    event: Event,
    reducers: &Reducers,
) -> Result<(Vec<Core<'a>>, bool), AllocError>
    requires { MayMake at event cores.items }
    ensures { IfOk result (λ made. AreAsBefore cores.entry.items made.0.items) }
{
    let mut cores = cores;
    let core = cores.remove(at);
    let Stepped { core, done } = core.step(event, reducers)?;
    cores.insert(at, core)?;
    Ok((cores, done))
}

impl<'a> World<'a> {
    /// The cores before their first event, all of which have met; none where the numbers of the run are out of range.
    pub fn start(
        alloc: Global,
        setup: Setup,
        code: &'a Code<'a>,
    ) -> Result<Option<World<'a>>, AllocError> {
        if !is_setup(setup) {
            return Ok(None);
        }
        let mut cores = gr_world::start(alloc, setup, code)?;
        meet_all(&mut cores);
        Ok(Some(World { cores }))
    }

    /// A core makes an event, if it may.
    pub fn step(
        &mut self,
        at: usize,
        event: Event,
        reducers: &Reducers,
    ) -> Result<Made, AllocError> {
        if !may_make(&self.cores, at, event) {
            return Ok(Made::NotEnabled);
        }
        let none = Vec::new(*self.cores.allocator());
        let cores = mem::replace(&mut self.cores, none);
        let (cores, done) = step_at(cores, at, event, reducers)?;
        self.cores = cores;
        Ok(if done { Made::Done } else { Made::NotDone })
    }

    /// All cores meet: each packet that was shipped is known, and so is each slot that is free.
    pub fn meet(&mut self) {
        if self.cores.len() > 0 {
            meet_all(&mut self.cores);
        }
    }

    /// Whether as many messages of a core wait for another one as fill a packet.
    pub fn is_full(&self, at: usize, dest: u64) -> bool {
        match self.cores.get(at) {
            Some(core) => core.full(dest),
            None => false,
        }
    }

    /// The cores.
    pub fn cores(&self) -> &[Core<'a>] {
        self.cores.as_slice()
    }

    /// The clock of a core.
    pub fn clock(&self, at: usize) -> u64 {
        match self.cores.get(at) {
            Some(core) => core.clock(),
            None => 0,
        }
    }

    /// Whether a core has passed the root scope.
    pub fn is_over(&self) -> bool {
        self.cores.iter().any(|core| core.passed())
    }

    /// Whether a task is trapped.
    pub fn is_trapped(&self) -> bool {
        self.cores.iter().any(|core| core.trapped())
    }

    /// Whether the clock of a core has come to the limit of events.
    pub fn is_spent(&self) -> bool {
        self.cores.iter().any(|core| core.spent())
    }

    /// The ends of all cores, after a last meeting.
    pub fn finish(self, alloc: Global) -> Result<CoreEnds, AllocError> {
        let World { mut cores } = self;
        if cores.len() == 0 {
            return Ok(CoreEnds::new(alloc));
        }
        meet_all(&mut cores);
        gr_world::finish(alloc, cores)
    }
}

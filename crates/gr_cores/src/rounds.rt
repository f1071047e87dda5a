//! Runs in rounds: each core in turn makes some events, each the first that it can make.
use crate::lines::Step;
use crate::world::{Made, World};
use gr_machine::{Event, Setup};
use gr_reduce::Reducers;
use gr_syntax::HEAP;
use std::alloc::{AllocError, Global};

/// The kinds of events, a Ship of a full packet being one of its own.
const KINDS: u64 = 7;

/// Why a run has come to its end.
#[derive(Clone, Copy, PartialEq, Eq)]
pub enum Outcome {
    /// The root scope is passed.
    Over,
    /// A task is trapped.
    Trapped,
    /// The clock of a core has come to the limit of events.
    Spent,
    /// No core could make an event.
    Stuck,
}

/// What a run in rounds goes by: its numbers, and the number of the objects of its program.
#[derive(Clone, Copy)]
pub struct Plan {
    pub setup: Setup,
    pub objects: u64,
    pub slice: u64,
    /// 0, or where the draws begin by which events are picked.
    pub seed: u64,
}

/// A world that is run in rounds, by a plan, with the events that were made so far.
#[derive(Drop)]
pub struct Rounds<'a> {
    pub world: World<'a>,
    pub steps: Vec<Step>,
    plan: Plan,
    drawn: u64,
}

impl<'a> Rounds<'a> {
    pub fn new(alloc: Global, world: World<'a>, plan: Plan) -> Rounds<'a> {
        Rounds {
            world,
            steps: Vec::new(alloc),
            plan,
            drawn: plan.seed,
        }
    }

    /// Whether a core has made an event.
    fn makes(&mut self, at: usize, event: Event, reducers: &Reducers) -> Result<bool, AllocError> {
        let made = self.world.step(at, event, reducers)?;
        if made != Made::Done {
            return Ok(false);
        }
        let clock = self.world.clock(at);
        self.steps.push(Step {
            core: at,
            clock,
            event,
        })?;
        Ok(true)
    }

    /// Whether a core has shipped a full packet.
    fn ships_full(&mut self, at: usize, reducers: &Reducers) -> Result<bool, AllocError> {
        for dest in 0..self.plan.setup.cores {
            if self.world.is_full(at, dest) && self.makes(at, Event::Ship { dest }, reducers)? {
                return Ok(true);
            }
        }
        Ok(false)
    }

    /// Whether a core has taken a packet.
    fn takes(&mut self, at: usize, reducers: &Reducers) -> Result<bool, AllocError> {
        for from in 0..self.plan.setup.cores {
            if self.makes(at, Event::Take { from }, reducers)? {
                return Ok(true);
            }
        }
        Ok(false)
    }

    /// Whether a core has closed an object, or the heap.
    fn closes(&mut self, at: usize, reducers: &Reducers) -> Result<bool, AllocError> {
        for object in 0..self.plan.objects {
            if self.makes(at, Event::Close { object }, reducers)? {
                return Ok(true);
            }
        }
        self.makes(at, Event::Close { object: HEAP }, reducers)
    }

    /// Whether a core has shipped a packet.
    fn ships(&mut self, at: usize, reducers: &Reducers) -> Result<bool, AllocError> {
        for dest in 0..self.plan.setup.cores {
            if self.makes(at, Event::Ship { dest }, reducers)? {
                return Ok(true);
            }
        }
        Ok(false)
    }

    /// Whether a core has asked another one for work.
    fn steals(&mut self, at: usize, reducers: &Reducers) -> Result<bool, AllocError> {
        for victim in 0..self.plan.setup.cores {
            if self.makes(at, Event::Steal { victim }, reducers)? {
                return Ok(true);
            }
        }
        Ok(false)
    }

    /// Whether a core has made an event of this kind.
    fn makes_kind(
        &mut self,
        at: usize,
        kind: u64,
        reducers: &Reducers,
    ) -> Result<bool, AllocError> {
        match kind {
            0 => self.makes(at, Event::Serve, reducers),
            1 => self.ships_full(at, reducers),
            2 => self.takes(at, reducers),
            3 => self.makes(at, Event::Run, reducers),
            4 => self.closes(at, reducers),
            5 => self.ships(at, reducers),
            _ => self.steals(at, reducers),
        }
    }

    /// Whether a core has made an event, of the first kind behind this one that it can make.
    fn goes_on(&mut self, at: usize, first: u64, reducers: &Reducers) -> Result<bool, AllocError> {
        for kind in 0..KINDS {
            if self.makes_kind(at, first.wrapping_add(kind) % KINDS, reducers)? {
                return Ok(true);
            }
        }
        Ok(false)
    }

    /// A number below this one; 0 always where the plan has no seed.
    fn draw(&mut self, below: u64) -> u64 {
        if self.plan.seed == 0 || below == 0 {
            return 0;
        }
        self.drawn = self
            .drawn
            .wrapping_mul(6364136223846793005)
            .wrapping_add(1442695040888963407);
        (self.drawn >> 33) % below
    }

    /// How many events a core makes at most in its turn.
    fn most(&mut self) -> u64 {
        let slice = self.plan.slice;
        let fewer = self.draw(slice);
        slice.saturating_sub(fewer)
    }

    /// Whether a core has made an event in its turn. Where it has, all cores meet.
    fn turn(&mut self, at: usize, reducers: &Reducers) -> Result<bool, AllocError> {
        let most = self.most();
        let mut goes = false;
        for _ in 0..most {
            let kind = self.draw(KINDS);
            if !self.goes_on(at, kind, reducers)? {
                break;
            }
            goes = true;
        }
        if goes {
            self.world.meet();
        }
        Ok(goes)
    }

    /// Whether one of the cores has made an event in a round. With a seed the first core and the kinds of the events are
    /// drawn.
    fn round(&mut self, reducers: &Reducers) -> Result<bool, AllocError> {
        let count = self.plan.setup.cores;
        let first = self.draw(count);
        let mut goes = false;
        for offset in 0..count {
            let at = (first.wrapping_add(offset) % count) as usize;
            if self.turn(at, reducers)? {
                goes = true;
            }
        }
        Ok(goes)
    }

    /// Why the run is at its end, after a round in which a core has made an event, or none has.
    fn outcome(&self, goes: bool) -> Option<Outcome> {
        if self.world.is_over() {
            return Some(Outcome::Over);
        }
        if self.world.is_trapped() {
            return Some(Outcome::Trapped);
        }
        if self.world.is_spent() {
            return Some(Outcome::Spent);
        }
        if goes { None } else { Some(Outcome::Stuck) }
    }

    /// Runs until the root scope is passed, a task is trapped, a clock has come to the limit, or nothing can go on.
    pub fn run(&mut self, reducers: &Reducers) -> Result<Outcome, AllocError> {
        for _ in 0..u64::MAX {
            let goes = self.round(reducers)?;
            if let Some(outcome) = self.outcome(goes) {
                return Ok(outcome);
            }
        }
        Ok(Outcome::Stuck)
    }
}

/// The word of an outcome.
pub fn outcome_word(outcome: Outcome) -> &'static str {
    match outcome {
        Outcome::Over => "over",
        Outcome::Trapped => "trapped",
        Outcome::Spent => "spent",
        Outcome::Stuck => "stuck",
    }
}

//! The queues of units.
ghost use Rattle.std.specs.Prelude.{◌≡◌, ◌-◌, ◌++◌, ◌∷◌, [], ◌&&◌, ◌≤◌, IfOk, OnErr, OnOk, drop, length, map, None, slice_get, take};
ghost use Rattle.std.specs.List.{last_or};
ghost use Rattle.gr_work.specs.Queues.{after_next, is_empty, next_unit};
ghost use Rattle.gr_work.specs.Parts.{CanBeSplit, kept_end, offered, part, with_split};

use crate::parts::{offer_halves, part};
use gr_msg::Unit;
use std::alloc::{AllocError, Global};
use std::collections::VecDeque;
use std::marker::Model;

/// Units that wait to be begun: the core's own, and those that other cores may take.
#[derive(Drop)]
pub struct Work {
    private: VecDeque<Unit>,
    public: VecDeque<Unit>,
}

impl Model for Work {
    ghost use Rattle.gr_work.specs.Queues.{Queues};

    ghost Value = { Queues };

    ghost view = { λ work. record { private = work.private.items; public = work.public.items } };
}

fn push_last(units: &mut VecDeque<Unit>, unit: Unit) -> Result<(), AllocError>
    ensures ok { OnOk result (units.new.items ≡ units.old.items ++ unit ∷ []) }
    ensures err { OnErr result (units.new.items ≡ units.old.items) }
{
    units.push_back(unit)?;
    Ok(())
}

fn push_first(units: &mut VecDeque<Unit>, unit: Unit) -> Result<(), AllocError>
    ensures ok { OnOk result (units.new.items ≡ unit ∷ units.old.items) }
    ensures err { OnErr result (units.new.items ≡ units.old.items) }
{
    units.push_front(unit)?;
    Ok(())
}

fn take_first(units: &mut VecDeque<Unit>) -> Option<Unit>
    ensures first { result ≡ slice_get units.old.items 0 }
    ensures rest { units.new.items ≡ drop 1 units.old.items }
{
    units.pop_front()
}

fn take_last(units: &mut VecDeque<Unit>) -> Option<Unit>
    ensures last { result ≡ last_or None units.old.items }
    ensures rest { units.new.items ≡ take (length units.old.items - 1) units.old.items }
{
    units.pop_back()
}

impl Work {
    /// No units. It takes no memory.
    pub fn new(alloc: Global) -> Work
        ensures { result ≡ record { private = []; public = [] } }
    {
        Work {
            private: VecDeque::new(alloc),
            public: VecDeque::new(alloc),
        }
    }

    /// Puts a unit last among the core's own. Unchanged where there is no memory.
    pub fn push_last(&mut self, unit: Unit) -> Result<(), AllocError>
        ensures ok { OnOk result (self.new
            ≡ record self.old { private = self.old.private ++ unit ∷ [] }) }
        ensures err { OnErr result (self.new ≡ self.old) }
    {
        push_last(&mut self.private, unit)
    }

    /// Puts a unit first among the core's own. Unchanged where there is no memory.
    pub fn push_first(&mut self, unit: Unit) -> Result<(), AllocError>
        ensures ok { OnOk result (self.new
            ≡ record self.old { private = unit ∷ self.old.private }) }
        ensures err { OnErr result (self.new ≡ self.old) }
    {
        push_first(&mut self.private, unit)
    }

    /// Puts a unit last among those that other cores may take. Unchanged where there is no memory.
    pub fn offer(&mut self, unit: Unit) -> Result<(), AllocError>
        ensures ok { OnOk result (self.new
            ≡ record self.old { public = self.old.public ++ unit ∷ [] }) }
        ensures err { OnErr result (self.new ≡ self.old) }
    {
        push_last(&mut self.public, unit)
    }

    /// Takes the first of the core's own units, or where there is none the last of those that others may take;
    /// none exactly where there is no unit.
    pub fn next(&mut self) -> Option<Unit>
        ensures unit { result ≡ next_unit self.old.private self.old.public }
        ensures rest { self.new ≡ after_next self.old.private self.old.public }
    {
        let own = take_first(&mut self.private);
        match own {
            Some(unit) => Some(unit),
            None => take_last(&mut self.public),
        }
    }

    /// Takes the first of the units that other cores may take; none exactly where there is none.
    pub fn give(&mut self) -> Option<Unit>
        ensures unit { result ≡ slice_get self.old.public 0 }
        ensures rest { self.new ≡ record self.old { public = drop 1 self.old.public } }
    {
        take_first(&mut self.public)
    }

    /// Whether there is no unit.
    pub fn is_empty(&self) -> bool
        ensures { result ≡ (is_empty self.now.private && is_empty self.now.public) }
    {
        self.private.is_empty() && self.public.is_empty()
    }

    fn offer_halves(
        &mut self,
        chunk: &Unit,
        lo: u64,
        hi: u64,
        grain: u64,
    ) -> Result<u64, AllocError>
        requires { lo ≤ hi }
        ensures end { IfOk result (λ end. end ≡ kept_end grain lo hi) }
        ensures offers { OnOk result (self.new ≡ record self.old {
          public = self.old.public ++ map (part chunk.now) (offered grain lo hi);
        }) }
    {
        offer_halves(&mut self.public, chunk, lo, hi, grain)
    }

    /// Splits a chunk that has indices and a grain of at least 1: while there are more indices than the grain, the
    /// upper half is offered. What is kept is the first of the core's own units from now on.
    pub fn split(&mut self, chunk: Unit) -> Result<(), AllocError>
        requires { CanBeSplit chunk }
        ensures { OnOk result (self.new ≡ with_split self.old chunk) }
    {
        match &chunk {
            Unit::Single { .. } => unreachable!(),
            Unit::Chunk { lo, hi, grain, .. } => {
                let from = *lo;
                let end = self.offer_halves(&chunk, from, *hi, *grain)?;
                self.push_first(part(chunk, from, end))
            }
        }
    }
}

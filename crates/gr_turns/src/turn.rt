//! A turn that a core has at a vector.
ghost use Rattle.std.specs.Prelude.{◌≡◌, IfOk, OnOk};
ghost use Rattle.gr_vector.specs.Plans as plans;
ghost use Rattle.gr_machine.specs.TurnServes.{get_answered, put_answered, turn_from, turn_replies};
ghost use Rattle.gr_turns.specs.LineView.{turn_in};

use crate::positions::{get_positions, is_among, keep, leave_out, put_positions};
use crate::replying::{Answers, ends_after, replies};
use gr_lang::Calls;
use gr_vector::{Ends, Plan};
use std::alloc::{AllocError, Global};
use std::collections::{BTreeMap, BTreeSet};
use std::marker::Model;

/// A turn that a core has at a vector.
#[derive(Drop)]
pub struct Turn {
    calls: Calls,
    ends: Ends,
    /// Where the vector's words stand after the calls.
    after: Ends,
    puts: BTreeSet<u64>,
    gets: BTreeSet<u64>,
    left: u64,
    answers: BTreeMap<u64, u64>,
}

impl Model for Turn {
    ghost use Rattle.std.specs.Prelude.{◌≡◌};
    ghost use Rattle.gr_vector.specs.Plans.{ends_after};
    ghost use Rattle.gr_turns.specs.LineView.{TurnData};

    ghost Value = { TurnData };

    ghost view = { λ turn. record {
      calls = turn.calls;
      ends = turn.ends;
      puts = turn.puts.keys;
      gets = turn.gets.keys;
      left = turn.left;
      answers = turn.answers.entries;
    } };

    ghost invariant = { λ turn. turn.after ≡ ends_after turn.calls turn.ends };
}

impl Turn {
    /// The turn of these calls, of whose plan nothing is answered. The vector's words stand between these ends.
    pub(crate) fn new(
        alloc: Global,
        calls: Calls,
        ends: Ends,
        plan: &Plan,
    ) -> Result<Turn, AllocError>
        ensures { IfOk result (λ turn. turn_in turn ≡ turn_from calls ends plan.now) }
    {
        let after = ends_after(calls.as_slice(), ends)?;
        let puts = put_positions(alloc, plan.puts.as_slice())?;
        let gets = get_positions(alloc, plan.gets.as_slice())?;
        let left = match (plan.puts.len() as u64).checked_add(plan.gets.len() as u64) {
            Some(left) => left,
            None => return Err(AllocError),
        };
        Ok(Turn {
            calls,
            ends,
            after,
            puts,
            gets,
            left,
            answers: BTreeMap::new(alloc),
        })
    }

    /// Whether a word that is put at this position isn't answered yet.
    pub fn awaits_put(&self, position: u64) -> bool
        ensures { result ≡ (turn_in self.now).puts position }
    {
        is_among(&self.puts, position)
    }

    /// Whether a word that is got from this position isn't answered yet.
    pub fn awaits_get(&self, position: u64) -> bool
        ensures { result ≡ (turn_in self.now).gets position }
    {
        is_among(&self.gets, position)
    }

    /// How many words aren't answered yet.
    pub fn left(&self) -> u64
        ensures { result ≡ (turn_in self.now).left }
    {
        self.left
    }

    /// The calls, in order, with their replies. An error is want of memory.
    pub fn replies(&self, alloc: Global) -> Result<Answers, AllocError>
        ensures { IfOk result (λ answers. answers ≡ turn_replies (turn_in self.now)) }
    {
        replies(alloc, self.calls.as_slice(), self.ends, &self.answers)
    }

    /// Where the vector's words stand afterwards.
    pub fn ends_after(&self) -> Ends
        ensures { result ≡ plans.ends_after (turn_in self.now).calls (turn_in self.now).ends }
    {
        self.after
    }

    /// A put is answered.
    pub(crate) fn answer_put(&mut self, position: u64)
        ensures { turn_in self.new ≡ put_answered (turn_in self.old) position }
    {
        leave_out(&mut self.puts, position);
        self.left = self.left.saturating_sub(1);
    }

    /// A get is answered, by this word.
    pub(crate) fn answer_get(&mut self, position: u64, word: u64) -> Result<(), AllocError>
        ensures { OnOk result (turn_in self.new ≡ get_answered (turn_in self.old) position word) }
    {
        keep(&mut self.answers, position, word)?;
        leave_out(&mut self.gets, position);
        self.left = self.left.saturating_sub(1);
        Ok(())
    }
}

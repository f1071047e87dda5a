//! A vector at a core.
ghost use Rattle.std.specs.Prelude.{◌≡◌, ◌↔◌, IfOk, IsTrue, None, OnOk, Some, length, slice_get};
ghost use Rattle.std.specs.List.Sorted.{IsStrictlySortedBy};
ghost use Rattle.std.specs.Map.{keys_of};
ghost use Rattle.std.specs.Option.{option_map};
ghost use Rattle.std.specs.Ordering.{nat_cmp};
ghost use Rattle.gr_vector.specs.Groups.{group_of, vector_of};
ghost use Rattle.gr_vector.specs.Parts.{part_of};
ghost use Rattle.gr_machine.specs.Openings.{empty_vector};
ghost use Rattle.gr_turns.specs.LineView.{turn_in, vector_in};
ghost use Rattle.gr_turns.specs.LineWords.{empty_data};
ghost use Rattle.gr_turns.specs.Lines.{to_answer_get, to_answer_put, to_begin, to_close, to_finish, to_hold, to_join};

use crate::turn::Turn;
use gr_lang::{Calls, Op, Pairs, WaitingCall};
use gr_vector::{Ends, Plan, VecCombiner, VecPart};
use std::alloc::{AllocError, Global};
use std::collections::VecDeque;
use std::marker::Model;

/// A vector at a core: its words here, the calls that wait to be combined, the groups that wait for a turn, the oldest
/// first, and the turn that the core has.
#[derive(Drop)]
pub struct Vector {
    number: u64,
    part: VecPart,
    combiner: VecCombiner,
    groups: VecDeque<Calls>,
    turn: Option<Turn>,
}

impl Model for Vector {
    ghost use Rattle.std.specs.Prelude.{◌≡◌, All, Some};
    ghost use Rattle.gr_vector.specs.Groups.{vector_of};
    ghost use Rattle.gr_turns.specs.LineView.{VectorData};

    ghost Value = { VectorData };

    ghost view = { λ vector. record {
      part = vector.part;
      combiner = vector.combiner;
      groups = vector.groups.items;
      turn = vector.turn;
    } };

    ghost invariant = { λ vector. All (λ call. vector_of call.op ≡ Some vector.number) vector.combiner };
}

/// The vector that a call is on, where it is a call of a vector.
fn vector_of(op: Op) -> Option<u64>
    ensures { result ≡ vector_of op }
{
    match op {
        Op::Push { object, .. } | Op::Pop { object } | Op::Dequeue { object } => Some(object),
        _ => None,
    }
}

/// Whether a call is on the vector of this number.
fn is_on(number: u64, call: &WaitingCall) -> bool
    ensures { IsTrue result ↔ (vector_of call.now.op ≡ Some number) }
{
    match vector_of(call.op) {
        Some(vector) => vector == number,
        None => false,
    }
}

impl Vector {
    /// No words, calls and turns. It takes no memory.
    pub(crate) fn new(alloc: Global, number: u64) -> Vector
        ensures { result ≡ empty_data }
    {
        Vector {
            number,
            part: VecPart::new(alloc),
            combiner: VecCombiner::new(alloc),
            groups: VecDeque::new(alloc),
            turn: None,
        }
    }

    /// The word at this position, if one is held there.
    pub fn word(&self, position: u64) -> Option<u64>
        ensures { result ≡ (vector_in self.now).part position }
    {
        self.part.get(position)
    }

    /// How many calls wait to be combined.
    pub fn count(&self) -> u64
        ensures { result ≡ length (vector_in self.now).combiner }
    {
        self.combiner.len()
    }

    /// The group that has waited longest for a turn, or has it.
    pub fn first_group(&self) -> Option<&Calls>
        ensures { option_map (λ calls. calls.now) result ≡ slice_get (vector_in self.now).groups 0 }
    {
        self.groups.front()
    }

    /// The turn that the core has.
    pub fn turn(&self) -> Option<&Turn>
        ensures { option_map (λ turn. turn_in turn.now) result ≡ (vector_in self.now).turn }
    {
        match &self.turn {
            Some(turn) => Some(turn),
            None => None,
        }
    }

    /// All positions with their words, by rising position. An error is want of memory.
    pub fn sorted(&self, alloc: Global) -> Result<Pairs, AllocError>
        ensures all { IfOk result (λ pairs. part_of pairs ≡ (vector_in self.now).part) }
        ensures rising { IfOk result (λ pairs. IsStrictlySortedBy nat_cmp (keys_of pairs)) }
    {
        self.part.sorted(alloc)
    }

    /// A call on this vector joins those that wait, the last. It is an error where the call is on another object.
    pub(crate) fn join(&mut self, call: WaitingCall) -> Result<(), AllocError>
        ensures { OnOk result (vector_in self.new ≡ to_join call (vector_in self.old)) }
    {
        if !is_on(self.number, &call) {
            return Err(AllocError);
        }
        self.combiner.join(call)
    }

    /// All calls that wait are the newest group, of which a copy is answered.
    pub(crate) fn close(&mut self, alloc: Global) -> Result<Calls, AllocError>
        ensures group { IfOk result (λ group. group ≡ group_of (vector_in self.old).combiner) }
        ensures closed { OnOk result (vector_in self.new ≡ to_close (vector_in self.old)) }
    {
        let group = self.combiner.close(alloc)?;
        let copied = group.copy()?;
        self.groups.push_back(group)?;
        Ok(copied)
    }

    /// The oldest group has the turn, with this plan. The vector's words stand between these ends.
    pub(crate) fn begin(&mut self, alloc: Global, ends: Ends, plan: &Plan) -> Result<(), AllocError>
        ensures { OnOk result (vector_in self.new ≡ to_begin ends plan.now (vector_in self.old)) }
    {
        if let Some(calls) = self.groups.front() {
            let copied = calls.copy()?;
            let turn = Turn::new(alloc, copied, ends, plan)?;
            self.turn = Some(turn);
        }
        Ok(())
    }

    /// Puts a word at an empty position.
    pub(crate) fn put(&mut self, position: u64, word: u64) -> Result<(), AllocError>
        requires { (vector_in self.old).part position ≡ None }
        ensures { OnOk result (vector_in self.new ≡ to_hold position (Some word) (vector_in self.old)) }
    {
        self.part.put(position, word)
    }

    /// No word is held at the position from now on.
    #[tactic(auto, using(crate::proofs::Puts::put_same))]
    pub(crate) fn take(&mut self, position: u64)
        ensures { vector_in self.new ≡ to_hold position None (vector_in self.old) }
    {
        if self.part.holds(position) {
            self.part.take(position);
        }
    }

    /// A put of the turn is answered.
    pub(crate) fn answer_put(&mut self, position: u64)
        ensures { vector_in self.new ≡ to_answer_put position (vector_in self.old) }
    {
        if let Some(turn) = &mut self.turn {
            turn.answer_put(position);
        }
    }

    /// A get of the turn is answered, by this word.
    pub(crate) fn answer_get(&mut self, position: u64, word: u64) -> Result<(), AllocError>
        ensures { OnOk result (vector_in self.new ≡ to_answer_get position word (vector_in self.old)) }
    {
        if let Some(turn) = &mut self.turn {
            turn.answer_get(position, word)?;
        }
        Ok(())
    }

    /// The turn has ended, and its group is gone.
    pub(crate) fn finish(&mut self)
        ensures { vector_in self.new ≡ to_finish (vector_in self.old) }
    {
        self.groups.pop_front();
        self.turn = None;
    }
}

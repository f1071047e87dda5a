//! The vectors at a core.
ghost use Rattle.std.specs.Prelude.{◌≡◌, ◌≤◌, IfOk, None, OnOk, Some, true};
ghost use Rattle.std.specs.Option.{option_and_then, option_map, option_map_or};
ghost use Rattle.gr_vector.specs.Turns.{asked, ended, grant_on_asking, granted, is_out};
ghost use Rattle.gr_turns.specs.LineView.{vector_in, vectors_in};
ghost use Rattle.gr_turns.specs.Lines.{AreOpening, changed, group_at, to_answer_get, to_answer_put, to_begin, to_close, to_finish, to_hold, to_join, turned};

use crate::by_number::{
    answer_get_at, answer_put_at, begin_at, close_at, finish_at, first_lines, join_at, put_at,
    take_at, vector_at,
};
use crate::masters::{ask_at, done_at, first_masters, master_at};
use crate::vector::Vector;
use gr_code::Shapes;
use gr_lang::{Calls, WaitingCall};
use gr_vector::{Ends, Granted, Plan, VecMaster};
use std::alloc::{AllocError, Global};
use std::marker::Model;

/// The vectors of a program at one core, by their numbers, and the turns at those whose master is here.
#[derive(Drop)]
pub struct Vectors {
    vectors: Vec<Option<Vector>>,
    masters: Vec<Option<VecMaster>>,
}

impl Model for Vectors {
    ghost use Rattle.gr_turns.specs.LineView.{VectorsData};

    ghost Value = { VectorsData };

    ghost view = { λ all. record { vectors = all.vectors.items; masters = all.masters.items } };
}

impl Vectors {
    /// Each vector of the shapes is empty, and the turns of each are kept at the core of its number modulo the
    /// number of cores.
    pub fn new(alloc: Global, shapes: &Shapes, cores: u64, me: u64) -> Result<Vectors, AllocError>
        requires { 1 ≤ cores }
        ensures { IfOk result (λ all. AreOpening shapes.now cores me (vectors_in all)) }
    {
        let vectors = first_lines(alloc, shapes.as_slice())?;
        let masters = first_masters(alloc, shapes.as_slice(), cores, me)?;
        Ok(Vectors { vectors, masters })
    }

    /// The vector of this number.
    pub fn get(&self, number: u64) -> Option<&Vector>
        ensures { option_map (λ vector. vector_in vector.now) result
            ≡ (vectors_in self.now).vectors number }
    {
        vector_at(&self.vectors, number as usize)
    }

    /// The turns at the vector of this number, where its master is here.
    pub fn master(&self, number: u64) -> Option<&VecMaster>
        ensures { option_map (λ turns. turns.now) result ≡ (vectors_in self.now).masters number }
    {
        master_at(&self.masters, number as usize)
    }

    /// A call on the vector joins those that wait. It is an error where the call is on another object.
    #[tactic(auto, using(crate::proofs::Whole::at_whole))]
    pub fn join(&mut self, number: u64, call: WaitingCall) -> Result<(), AllocError>
        ensures { OnOk result (vectors_in self.new ≡ changed (to_join call) (vectors_in self.old) number) }
    {
        join_at(&mut self.vectors, number as usize, call)
    }

    /// All calls that wait at the vector are the newest group, of which a copy is answered.
    #[tactic(auto, using(crate::proofs::Whole::at_whole))]
    pub fn close(&mut self, alloc: Global, number: u64) -> Result<Calls, AllocError>
        ensures group { IfOk result (λ group. group
            ≡ group_at ((vectors_in self.old).vectors number)) }
        ensures closed { OnOk result (vectors_in self.new
            ≡ changed to_close (vectors_in self.old) number) }
    {
        close_at(&mut self.vectors, number as usize, alloc)
    }

    /// The oldest group at the vector has the turn, with this plan. The vector's words stand between these ends.
    #[tactic(auto, using(crate::proofs::Whole::at_whole))]
    pub fn begin(
        &mut self,
        alloc: Global,
        number: u64,
        ends: Ends,
        plan: &Plan,
    ) -> Result<(), AllocError>
        ensures { OnOk result (vectors_in self.new
            ≡ changed (to_begin ends plan.now) (vectors_in self.old) number) }
    {
        begin_at(&mut self.vectors, number as usize, alloc, ends, plan)
    }

    /// Puts a word at an empty position.
    #[tactic(auto, using(crate::proofs::Whole::at_whole))]
    pub fn put(&mut self, number: u64, position: u64, word: u64) -> Result<(), AllocError>
        requires { option_and_then (λ vector. vector.part position)
            ((vectors_in self.old).vectors number) ≡ None }
        ensures { OnOk result (vectors_in self.new
            ≡ changed (to_hold position (Some word)) (vectors_in self.old) number) }
    {
        put_at(&mut self.vectors, number as usize, position, word)
    }

    /// No word is held at the position from now on.
    #[tactic(auto, using(crate::proofs::Whole::at_whole))]
    pub fn take(&mut self, number: u64, position: u64)
        ensures { vectors_in self.new
            ≡ changed (to_hold position None) (vectors_in self.old) number }
    {
        take_at(&mut self.vectors, number as usize, position);
    }

    /// A put of the turn at the vector is answered.
    #[tactic(auto, using(crate::proofs::Whole::at_whole))]
    pub fn answer_put(&mut self, number: u64, position: u64)
        ensures { vectors_in self.new
            ≡ changed (to_answer_put position) (vectors_in self.old) number }
    {
        answer_put_at(&mut self.vectors, number as usize, position);
    }

    /// A get of the turn at the vector is answered, by this word.
    #[tactic(auto, using(crate::proofs::Whole::at_whole))]
    pub fn answer_get(&mut self, number: u64, position: u64, word: u64) -> Result<(), AllocError>
        ensures { OnOk result (vectors_in self.new
            ≡ changed (to_answer_get position word) (vectors_in self.old) number) }
    {
        answer_get_at(&mut self.vectors, number as usize, position, word)
    }

    /// The turn at the vector has ended, and its group is gone.
    #[tactic(auto, using(crate::proofs::Whole::at_whole))]
    pub fn finish(&mut self, number: u64)
        ensures { vectors_in self.new ≡ changed to_finish (vectors_in self.old) number }
    {
        finish_at(&mut self.vectors, number as usize);
    }

    /// A core asks for a turn at a vector; the grant, where it is granted at once.
    #[tactic(auto, using(crate::proofs::Whole::at_whole))]
    pub fn ask(&mut self, number: u64, core: u64) -> Result<Option<Granted>, AllocError>
        ensures grant { IfOk result (λ grant. grant
            ≡ option_and_then (λ turns. grant_on_asking turns core) ((vectors_in self.old).masters number)) }
        ensures turns { OnOk result (vectors_in self.new
            ≡ turned (λ turns. asked turns core) (vectors_in self.old) number) }
    {
        ask_at(&mut self.masters, number as usize, core)
    }

    /// The turn that is out at a vector ends; the next grant.
    #[tactic(auto, using(crate::proofs::Whole::at_whole))]
    pub fn done(&mut self, number: u64, head: u64, tail: u64) -> Option<Granted>
        requires { option_map_or is_out ((vectors_in self.old).masters number) true ≡ true }
        ensures grant { result
            ≡ option_and_then (λ turns. granted (ended turns head tail)) ((vectors_in self.old).masters number) }
        ensures turns { vectors_in self.new ≡ turned (λ turns. ended turns head tail) (vectors_in self.old) number }
    {
        done_at(&mut self.masters, number as usize, head, tail)
    }
}

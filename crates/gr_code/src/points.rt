//! Instructions with their points, and what each was made of.
ghost use Rattle.std.specs.Prelude.{◌≡◌, ◌<◌, ◌++◌, ◌∷◌, [], length, slice_get, slice_set, IfOk, OnOk};
ghost use Rattle.std.specs.Option.{option_copied};
ghost use Rattle.gr_code.specs.PointView.{point_of};

use crate::instructions::Instruction;
use gr_syntax::{Block, Names, Stmt};
use std::alloc::{AllocError, Global};
use std::marker::Model;

/// What an instruction was made of, and the point that follows: the end of a task's body, the end of a
/// `finish`, or a statement.
#[derive(Clone, Copy)]
pub enum Origin<'a> {
    End { params: &'a Names, body: &'a Block },
    Arrive { next: usize },
    Run { stmt: &'a Stmt, next: usize },
}

/// Instructions by point. Contracts see them, and what is left to do at each point.
#[derive(Drop)]
pub struct Points<'a> {
    instructions: Vec<Instruction>,
    origins: Vec<Origin<'a>>,
}

impl<'a> Model for Points<'a> {
    ghost use Rattle.std.specs.Prelude.{◌≡◌, length};
    ghost use Rattle.std.specs.Coded.{codes};
    ghost use Rattle.gr_code.specs.contracts.terms.Term as term;
    ghost use Rattle.gr_syntax.specs.contracts.syntax.Stmt as stmt;
    ghost use Rattle.gr_code.specs.PointView.{Laid, points_of};

    ghost Value = { Laid };

    ghost coded = { Prim.hlevel (codes, term.the_row.coded, stmt.the_row.coded) };

    ghost view = { λ p. record { instructions = p.instructions.items; points = points_of p.origins.items } };

    ghost invariant = { λ p. length p.instructions.items ≡ length (points_of p.origins.items) };
}

impl<'a> Points<'a> {
    /// No points.
    pub fn new(alloc: Global) -> Points<'a>
        ensures { result ≡ record { instructions = []; points = [] } }
    {
        Points {
            instructions: Vec::new(alloc),
            origins: Vec::new(alloc),
        }
    }

    /// Puts a point last, and gives its number.
    pub fn put(&mut self, instruction: Instruction, origin: Origin<'a>) -> Result<usize, AllocError>
        ensures place { IfOk result
            (λ at. (at ≡ length self.old.instructions) × (at ≡ length self.old.points)) }
        ensures ok { OnOk result (self.new ≡ record {
          instructions = self.old.instructions ++ instruction ∷ [];
          points = self.old.points ++ point_of origin.entry self.old.points ∷ [];
        }) }
    {
        let at = self.instructions.len();
        self.instructions.push(instruction)?;
        match self.origins.push(origin) {
            Ok(()) => Ok(at),
            Err(error) => {
                let _ = self.instructions.pop();
                Err(error.into())
            }
        }
    }

    /// Puts another instruction at a point.
    pub fn patch(&mut self, at: usize, instruction: Instruction)
        requires { at < length self.old.instructions }
        ensures { self.new ≡ record self.old {
          instructions = slice_set self.old.instructions at instruction;
        } }
    {
        self.instructions[at] = instruction;
    }

    /// The instruction at a point.
    pub fn get(&self, at: usize) -> Option<&Instruction>
        ensures value { option_copied result ≡ slice_get self.now.instructions at }
        ensures even { length self.now.instructions ≡ length self.now.points }
    {
        self.instructions.get(at)
    }

    /// The number of points.
    pub fn len(&self) -> usize
        ensures { result ≡ length self.now.points }
    {
        self.instructions.len()
    }
}

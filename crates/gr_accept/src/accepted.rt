//! A program that the checker accepts.
ghost use Rattle.std.specs.Prelude.{◌≡◌};
ghost use Rattle.gr_accept.specs.Accepted.{IsAccepted};

use gr_syntax::Program;
use std::marker::Model;

/// A program in which none of the ten conditions for a refusal holds. Contracts see the program.
#[derive(Drop)]
pub struct Accepted {
    program: Program,
}

impl Model for Accepted {
    ghost use Rattle.std.specs.Coded.{codes};
    ghost use Rattle.gr_syntax.specs.declared.syntax.Program.{Program};
    ghost use Rattle.gr_syntax.specs.contracts.syntax.Stmt as stmt;
    ghost use Rattle.gr_accept.specs.Accepted.{IsAccepted};

    ghost Value = { Program };

    ghost coded = { Prim.hlevel (codes, stmt.the_row.coded) };

    ghost view = { λ a. a.program };

    ghost invariant = { λ a. IsAccepted a.program };
}

impl Accepted {
    /// The program, which the caller knows to be accepted.
    pub fn new(program: Program) -> Accepted
        requires { IsAccepted program }
        ensures { result ≡ program }
    {
        Accepted { program }
    }

    /// The program, lent.
    pub fn program(&self) -> &Program
        ensures same { result.now ≡ self.now }
        ensures accepted { IsAccepted self.now }
    {
        &self.program
    }
}

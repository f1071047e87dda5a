//! The earliest of the faults that were noted.
ghost use Rattle.std.specs.Prelude.{◌≡◌, [], ◌∷◌};
ghost use Rattle.gr_syntax.specs.Faults.{comes_before, fault, when};
ghost use Rattle.gr_checker.specs.EarliestWords.{least};

use gr_syntax::{Fault, Kind, Place};
use std::marker::Model;

fn is_before(one: &Fault, other: &Fault) -> bool
    ensures { result ≡ comes_before one.now other.now }
{
    if one.at.line != other.at.line {
        one.at.line < other.at.line
    } else if one.at.column != other.at.column {
        one.at.column < other.at.column
    } else {
        one.kind.rank() < other.kind.rank()
    }
}

/// The earliest fault of those that were noted so far, by place and then by the list of kinds.
#[derive(Drop)]
pub struct Earliest {
    found: Option<Fault>,
}

impl Model for Earliest {
    ghost use Rattle.std.specs.Prelude.{Option};
    ghost use Rattle.gr_syntax.specs.declared.refusal.Fault.{Fault};

    ghost Value = { Option Fault };

    ghost view = { λ e. e.found };
}

impl Earliest {
    /// No fault so far.
    pub fn new() -> Earliest
        ensures { result ≡ None }
    {
        Earliest { found: None }
    }

    /// The earliest fault, if any was noted.
    pub fn get(&self) -> Option<Fault>
        ensures { result ≡ self.now }
    {
        self.found
    }

    /// Notes a fault.
    pub fn note(&mut self, kind: Kind, at: Place)
        ensures { self.new ≡ least self.old (fault kind at ∷ []) }
    {
        let fault = Fault { kind, at };
        let is_first = match &self.found {
            None => true,
            Some(found) => is_before(&fault, found),
        };
        if is_first {
            self.found = Some(fault);
        }
    }

    /// Notes a fault where the condition holds.
    pub fn note_if(&mut self, broken: bool, kind: Kind, at: Place)
        ensures { self.new ≡ least self.old (when broken kind at) }
    {
        if broken {
            self.note(kind, at);
        }
    }
}

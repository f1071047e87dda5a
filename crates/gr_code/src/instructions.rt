//! The instructions of code. Each names the points to which it leads.
ghost use Rattle.std.specs.Prelude.{◌≡◌};
ghost use Rattle.gr_code.specs.Instructions.{onward_of};

use crate::terms::{Targets, Term, Terms};
use gr_accept::Operation;

/// An instruction: one pure step or one action of a task. Points are told by their numbers.
#[derive(Drop)]
pub enum Instruction {
    /// The first target takes the word.
    Set {
        value: Term,
        targets: Targets,
        next: usize,
    },
    /// A call, whose result words the targets take.
    Call {
        operation: Option<Operation>,
        object: u64,
        reducer: u64,
        args: Terms,
        targets: Targets,
        next: usize,
    },
    Print {
        value: Term,
        next: usize,
    },
    /// A test, which leads on where its word isn't 0, and where it is.
    Branch {
        test: Term,
        one: usize,
        other: usize,
        next: usize,
    },
    Finish {
        body: usize,
    },
    Spawn {
        way: Way,
        target: u64,
        args: Terms,
        next: usize,
    },
    /// Its arguments are the bounds, the grain and those of the task.
    Loop {
        target: u64,
        args: Terms,
        next: usize,
    },
    /// The end of a `finish`.
    Arrive {
        next: usize,
    },
    /// The end of a task's body.
    End,
}

/// Where a new task may run.
#[derive(Drop)]
pub enum Way {
    Here,
    At { core: Term },
    Offer,
}

/// How a task goes on after an action: at this point, once the targets have taken the reply.
#[derive(Clone, Copy)]
pub struct Onward {
    pub next: usize,
    pub targets: Targets,
}

impl Instruction {
    /// How a task goes on after the action of this instruction, which stands at that point.
    pub fn onward(&self, at: usize) -> Onward
        ensures { result ≡ onward_of at self.now }
    {
        match self {
            Instruction::Set { targets, next, .. } => Onward {
                next: *next,
                targets: *targets,
            },
            Instruction::Call { targets, next, .. } => Onward {
                next: *next,
                targets: *targets,
            },
            Instruction::Print { next, .. } => Onward::to(*next),
            Instruction::Branch { next, .. } => Onward::to(*next),
            Instruction::Finish { body } => Onward::to(*body),
            Instruction::Spawn { next, .. } => Onward::to(*next),
            Instruction::Loop { next, .. } => Onward::to(*next),
            Instruction::Arrive { next } => Onward::to(*next),
            Instruction::End => Onward::to(at),
        }
    }
}

impl Onward {
    /// Without targets.
    pub fn to(next: usize) -> Onward
        ensures { result ≡ record { next = next; targets = Targets.Empty } }
    {
        Onward {
            next,
            targets: Targets::Empty,
        }
    }
}

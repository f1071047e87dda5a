//! The turns at one vector, granted one after another.
ghost use Rattle.std.specs.Prelude.{◌≡◌, [], true, IfOk, OnErr, OnOk};
ghost use Rattle.gr_vector.specs.Turns as spec;

use std::alloc::{AllocError, Global};
use std::collections::VecDeque;
use std::marker::Model;

/// A turn at a vector, granted to a core. The vector's words stand from position head to below tail.
#[derive(Clone, Copy, PartialEq, Eq)]
pub struct Granted {
    pub core: u64,
    pub head: u64,
    pub tail: u64,
}

/// Where a vector's words stand, and the cores that asked for a turn which hasn't ended.
#[derive(Drop)]
pub struct VecMaster {
    head: u64,
    tail: u64,
    /// In the order of asking; the first has the turn.
    cores: VecDeque<u64>,
}

impl Model for VecMaster {
    ghost use Rattle.gr_vector.specs.Turns.{Turns};

    ghost Value = { Turns };

    ghost use Rattle.gr_vector.specs.TurnView.{turns_of};

    ghost view = { turns_of };
}

/// The turn of the first core, if there is one.
fn turn(head: u64, tail: u64, cores: &VecDeque<u64>) -> Option<Granted>
    ensures { result ≡ spec.turn_of head tail cores.now.items }
{
    match cores.front() {
        Some(core) => Some(Granted {
            core: *core,
            head,
            tail,
        }),
        None => None,
    }
}

impl VecMaster {
    /// An empty vector at which no turn is out. It takes no memory.
    pub fn new(alloc: Global) -> VecMaster
        ensures { result ≡ record { head = 0; tail = 0; cores = [] } }
    {
        VecMaster {
            head: 0,
            tail: 0,
            cores: VecDeque::new(alloc),
        }
    }

    /// Whether a turn is out.
    pub fn is_out(&self) -> bool
        ensures { result ≡ spec.is_out self.now }
    {
        !self.cores.is_empty()
    }

    /// A core asks for a turn. It is granted at once where no turn is out; else the core waits last.
    /// Unchanged where there is no memory.
    pub fn ask(&mut self, core: u64) -> Result<Option<Granted>, AllocError>
        ensures ok { OnOk result (self.new ≡ spec.asked self.old core) }
        ensures err { OnErr result (self.new ≡ self.old) }
        ensures grant { IfOk result (λ grant. grant ≡ spec.grant_on_asking self.old core) }
    {
        let waits = self.is_out();
        self.cores.push_back(core)?;
        if waits {
            return Ok(None);
        }
        Ok(Some(Granted {
            core,
            head: self.head,
            tail: self.tail,
        }))
    }

    /// The turn that is out ends, and leaves the vector's words from position head to below tail. Answers
    /// the next grant, or nothing where nobody waits. It takes no memory.
    pub fn done(&mut self, head: u64, tail: u64) -> Option<Granted>
        requires { spec.is_out self.old ≡ true }
        ensures turns { self.new ≡ spec.ended self.old head tail }
        ensures grant { result ≡ spec.granted self.new }
    {
        self.head = head;
        self.tail = tail;
        self.cores.pop_front();
        turn(head, tail, &self.cores)
    }
}

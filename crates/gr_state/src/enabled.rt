//! Which events a core may make.
ghost use Rattle.std.specs.Prelude.{◌≡◌};
ghost use Rattle.gr_machine.specs.Closes.{held_count};
ghost use Rattle.gr_machine.specs.Enabled.{can, can_go, enabled, has_no_work, is_halted, is_idle, is_other, is_quiet, none_held};
ghost use Rattle.gr_state.specs.StateView.{seen_of};

use crate::state::State;
use gr_machine::Event;
use gr_syntax::HEAP;

impl<'a> State<'a> {
    /// No slot is ready, and no unit waits.
    fn has_no_work(&self) -> bool
        ensures { result ≡ has_no_work (seen_of self.now).core.body }
    {
        self.slots.none_ready() && self.work.is_empty()
    }

    /// Nor does a message.
    fn is_quiet(&self) -> bool
        ensures { result ≡ is_quiet (seen_of self.now).core }
    {
        self.posts.has_none() && self.has_no_work()
    }

    /// How many calls wait on an object.
    fn held(&self, object: u64) -> u64
        ensures { result ≡ held_count (seen_of self.now).core.body object }
    {
        match self.vectors.get(object) {
            Some(vector) => vector.count(),
            None => self.combining.count(object),
        }
    }

    /// Whether no call waits on the first objects, so many, nor on the heap.
    #[tactic(auto, using(crate::proofs::Holding::when_held))]
    fn none_held(&self, count: u64) -> bool
        ensures { result ≡ none_held (seen_of self.now).core.body count }
    {
        let mut left = count;
        'objects: while left > 0 {
            left -= 1;
            if self.held(left) != 0 {
                return false;
            }
        }
        self.held(HEAP) == 0
    }

    /// No message, no work, and no call that waits to be combined.
    fn is_idle(&self) -> bool
        ensures { let s = seen_of self.now in result ≡ is_idle s.machine s.core }
    {
        self.is_quiet() && self.none_held(self.slots.code().objects().len() as u64)
    }

    /// Whether there is another core of this number.
    fn is_other(&self, core: u64) -> bool
        ensures { let s = seen_of self.now in result ≡ is_other s.machine s.me core }
    {
        core != self.posts.me() && core < self.posts.setup().cores
    }

    /// Whether so many things fill a packet; or there is one, and nothing else to do.
    fn can_go(&self, count: u64, calm: bool) -> bool
        ensures { result ≡ can_go (seen_of self.now).machine count calm }
    {
        self.posts.setup().limit <= count || (0 < count && calm)
    }

    /// Whether there is what an event needs. Whether a packet has come for a Take isn't asked.
    fn can(&self, event: Event) -> bool
        ensures { let s = seen_of self.now in result ≡ can s.machine s.me s.core event }
    {
        match event {
            Event::Take { from } => self.is_other(from),
            Event::Serve => !self.posts.has_none(),
            Event::Run => !self.has_no_work(),
            Event::Ship { dest } => {
                self.is_other(dest) && self.can_go(self.posts.waiting(dest), self.is_idle())
            }
            Event::Close { object } => self.can_go(self.held(object), self.is_quiet()),
            Event::Steal { victim } => {
                self.is_other(victim) && self.is_idle() && !self.steals.is_asked(victim)
            }
        }
    }

    /// A task is trapped here, or the core has passed the root scope.
    fn is_halted(&self) -> bool
        ensures { result ≡ is_halted (seen_of self.now).core }
    {
        self.trapped || self.passed
    }

    /// Whether the core isn't halted, its clock is below the limit, and there is what the event needs. Whether a packet
    /// has come for a Take isn't asked.
    pub fn enabled(&self, event: Event) -> bool
        ensures { let s = seen_of self.now in result ≡ enabled s.machine s.me s.core event }
    {
        !self.is_halted() && self.clock < self.posts.setup().events && self.can(event)
    }
}

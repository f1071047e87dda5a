//! A core with its journal, but for its rings; and its events but Take and Ship.
ghost use Rattle.std.specs.Prelude.{◌≡◌, OnOk, true};
ghost use Rattle.gr_machine.specs.Counting.{calls_next};
ghost use Rattle.gr_machine.specs.Enabled.{enabled};
ghost use Rattle.gr_machine.specs.declared.event.Event.TheVariants as event;
ghost use Rattle.gr_courses.specs.Seen.{ticked_to};
ghost use Rattle.gr_serves.specs.Heaps.{KnowsHeap};
ghost use Rattle.gr_state.specs.StateView.{seen_of};
ghost use Rattle.gr_core.specs.CoreView.{run_in};
ghost use Rattle.gr_core.specs.EntryWords.{noted, with_asks, with_calls, with_seen};
ghost use Rattle.gr_core.specs.Runs.{Made};

use gr_closes::close;
use gr_lang::{Action, Words};
use gr_machine::{Event, Journal, Packets, Stamped};
use gr_reduce::Reducers;
use gr_runs::run;
use gr_serves::serve;
use gr_state::{State, counted, one_more};
use std::alloc::AllocError;

/// A core with its journal: the slot of main at core 0, and 0 at every other core; its state; and for each core the
/// packets that it took from there and shipped there.
#[derive(Drop)]
pub struct Running<'a> {
    pub first: u64,
    pub state: State<'a>,
    pub journal: Journal,
    pub received: Vec<Packets>,
    pub sent: Vec<Packets>,
}

impl<'a> Running<'a> {
    /// The clock is the next after this one.
    pub fn tick(&mut self, clock: u64) -> Result<(), AllocError>
        ensures { OnOk result (run_in self.new
            ≡ with_seen (run_in self.old) (ticked_to (run_in self.old).seen clock)) }
    {
        self.state.clock = one_more(clock)?;
        Ok(())
    }

    /// The journal has one entry more: the event, with the clock after it and the slots that its new tasks took.
    pub fn note(&mut self, event: Event, slots: Words) -> Result<(), AllocError>
        ensures { OnOk result (run_in self.new ≡ noted (run_in self.old) event slots) }
    {
        self.journal.push(Stamped {
            clock: self.state.clock,
            event,
            slots,
        })
    }

    /// Whether the first ready slot has a task whose next action is a call.
    fn calls_next(&self) -> bool
        ensures { result ≡ calls_next (run_in self.now).seen.core }
    {
        let Some(slot) = self.state.slots.first_ready() else {
            return false;
        };
        match self.state.slots.get(slot) {
            Some(task) => matches!(task.action, Action::Call { .. }),
            None => false,
        }
    }

    /// One call more, where it is one.
    fn count_call(&mut self, is_call: bool) -> Result<(), AllocError>
        ensures { OnOk result (run_in self.new ≡ with_calls (run_in self.old) is_call) }
    {
        self.state.done.calls = counted(self.state.done.calls, is_call)?;
        Ok(())
    }

    /// One core more was asked for work.
    fn count_ask(&mut self) -> Result<(), AllocError>
        ensures { OnOk result (run_in self.new ≡ with_asks (run_in self.old)) }
    {
        self.state.done.asks = one_more(self.state.done.asks)?;
        Ok(())
    }

    /// The first letter is served.
    #[tactic(auto, using(crate::proofs::Inner::inner_events))]
    pub fn serve(&mut self, reducers: &Reducers) -> Result<(), AllocError>
        requires enabled { let s = (run_in self.old).seen in
            enabled s.machine s.me s.core event.Serve ≡ true }
        requires heap { KnowsHeap (run_in self.old).seen }
        ensures { OnOk result (Made (run_in self.old) event.Serve (run_in self.new)) }
    {
        self.tick(self.state.clock)?;
        serve(&mut self.state, reducers)?;
        self.note(Event::Serve, Words::new(self.state.alloc))
    }

    /// The first ready task acts, or where none is ready the next unit is taken up.
    #[tactic(auto, using(crate::proofs::Inner::inner_events))]
    pub fn run(&mut self) -> Result<(), AllocError>
        requires { let s = (run_in self.old).seen in enabled s.machine s.me s.core event.Run ≡ true }
        ensures { OnOk result (Made (run_in self.old) event.Run (run_in self.new)) }
    {
        let is_call = self.calls_next();
        self.tick(self.state.clock)?;
        let slots = run(&mut self.state)?;
        self.count_call(is_call)?;
        self.note(Event::Run, slots)
    }

    /// The calls that wait to be combined on an object go off.
    #[tactic(auto, using(crate::proofs::Inner::inner_events))]
    pub fn close(&mut self, object: u64, reducers: &Reducers) -> Result<(), AllocError>
        requires { let s = (run_in self.old).seen in
            enabled s.machine s.me s.core (event.Close object) ≡ true }
        ensures { OnOk result (Made (run_in self.old) (event.Close object) (run_in self.new)) }
    {
        self.tick(self.state.clock)?;
        close(&mut self.state, object, reducers)?;
        self.note(Event::Close { object }, Words::new(self.state.alloc))
    }

    /// Another core is asked for work.
    #[tactic(auto, using(crate::proofs::Inner::inner_events))]
    pub fn steal(&mut self, victim: u64) -> Result<(), AllocError>
        requires { let s = (run_in self.old).seen in
            enabled s.machine s.me s.core (event.Steal victim) ≡ true }
        ensures { OnOk result (Made (run_in self.old) (event.Steal victim) (run_in self.new)) }
    {
        self.tick(self.state.clock)?;
        self.state.ask(victim)?;
        self.count_ask()?;
        self.note(Event::Steal { victim }, Words::new(self.state.alloc))
    }
}

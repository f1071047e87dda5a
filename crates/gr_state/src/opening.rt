//! The state of a core before its first event.
ghost use Rattle.std.specs.Prelude.{◌≡◌, ◌<◌, IfOk, length};
ghost use Rattle.gr_lang.specs.Openings.{opening};
ghost use Rattle.gr_event.specs.Counts.{counts_of};
ghost use Rattle.gr_event.specs.Masters.{masters_of};
ghost use Rattle.gr_machine.specs.Machines.{machine_of};
ghost use Rattle.gr_machine.specs.Counting.{nothing_done};
ghost use Rattle.gr_machine.specs.Openings.{first_scopes, first_tasks, no_scopes, no_tasks, opening_body, opening_core, unused};
ghost use Rattle.gr_posts.specs.Posts.{IsSetup};
ghost use Rattle.gr_store.specs.Stores.{Deals};
ghost use Rattle.gr_state.specs.Opened.{before_all};
ghost use Rattle.gr_state.specs.StateView.{seen_of};

use crate::state::State;
use crate::steals::Steals;
use gr_addr::Layout;
use gr_code::{Code, Shape};
use gr_combining::Combining;
use gr_event::{LocalCounts, Masters, Waiter};
use gr_lang::TaskId;
use gr_machine::{Counts, Marks, Setup};
use gr_msg::ScopeId;
use gr_posts::Posts;
use gr_slots::Slots;
use gr_store::Store;
use gr_turns::Vectors;
use gr_work::Work;
use std::alloc::{AllocError, Global};

/// Number 0 of core 0, the scope in which main stands.
const ROOT: ScopeId = ScopeId { core: 0, number: 0 };

/// All words of a program, those of its heap included. It is an error where numbers run out.
#[tactic(auto, using(crate::proofs::Beginning::words_counted))]
fn word_count(code: &Code) -> Result<u64, AllocError>
    ensures { IfOk result (λ count. count ≡ length (opening code.now.program).words) }
{
    match code.heap() {
        Shape::Words { from, words } => from.checked_add(words).ok_or(AllocError),
        Shape::Set | Shape::Map | Shape::Vector => Err(AllocError),
    }
}

/// How the words of a program are dealt to the cores of a run. It is an error where they are too many.
fn layout_of(setup: Setup, code: &Code) -> Result<Layout, AllocError>
    ensures deals { IfOk result (λ layout. Deals layout setup) }
    ensures words { IfOk result
        (λ layout. layout.words ≡ length (opening code.now.program).words) }
{
    let words = word_count(code)?;
    match Layout::new(setup.cores, setup.block, words) {
        Ok(layout) => Ok(layout),
        Err(_) => Err(AllocError),
    }
}

/// Core 0 counts one task of the root scope, main.
#[tactic(auto, using(gr_event::proofs::ScopePuts::at_scopes))]
fn first_counts(alloc: Global) -> Result<LocalCounts, AllocError>
    ensures { IfOk result (λ counts. counts_of counts ≡ first_scopes.counts) }
{
    let mut counts = LocalCounts::new(alloc);
    counts.start(ROOT, 1)?;
    Ok(counts)
}

/// Core 0 alone is active in the root scope, and the program's end waits for it.
#[tactic(auto, using(crate::proofs::Beginning::at_root))]
fn first_masters(alloc: Global) -> Result<Masters, AllocError>
    ensures { IfOk result (λ masters. masters_of masters ≡ first_scopes.masters) }
{
    let mut masters = Masters::new(alloc);
    masters.start(ROOT)?;
    masters.wait(ROOT, Waiter::Root);
    Ok(masters)
}

/// Nothing is done yet.
fn nothing_done() -> Counts
    ensures { result ≡ nothing_done }
{
    Counts {
        calls: 0,
        messages: 0,
        packets: 0,
        short: 0,
        batches: 0,
        asks: 0,
        gives: 0,
    }
}

impl<'a> State<'a> {
    /// A core with no tasks and no scopes, and with the opening words of the addresses that are dealt to it.
    fn unused(
        alloc: Global,
        setup: Setup,
        me: u64,
        code: &'a Code<'a>,
        layout: &Layout,
    ) -> Result<State<'a>, AllocError>
        requires setup { IsSetup setup }
        requires core { me < setup.cores }
        requires deals { Deals layout.now setup }
        requires words { layout.now.words ≡ length (opening code.now.program).words }
        ensures seen { let machine = machine_of setup code.now.program in IfOk result (λ state. seen_of state
            ≡ before_all machine me (seen_of state).heap (unused (opening_body machine me no_tasks no_scopes))) }
        ensures heap { IfOk result (λ state. me ≡ 0
            → (seen_of state).heap ≡ (opening code.now.program).heap) }
    {
        let posts = Posts::new(alloc, setup, me)?;
        let store = Store::open(alloc, code, layout, me)?;
        let combining = Combining::new(alloc)?;
        let vectors = Vectors::new(alloc, code.objects(), setup.cores, me)?;
        let steals = Steals::new(alloc, setup.cores)?;
        Ok(State {
            alloc,
            clock: 0,
            posts,
            slots: Slots::new(alloc, code),
            work: Work::new(alloc),
            counts: LocalCounts::new(alloc),
            masters: Masters::new(alloc),
            scopes: 0,
            store,
            combining,
            vectors,
            steals,
            trapped: false,
            passed: false,
            marks: Marks::new(alloc),
            done: nothing_done(),
        })
    }

    /// Main stands ready in the slot that is answered, under the root scope.
    fn begin_main(&mut self) -> Result<u64, AllocError>
        requires tasks { (seen_of self.old).core.body.tasks ≡ no_tasks }
        ensures { let s = seen_of self.old in IfOk result (λ slot. seen_of self.new ≡ record s {
          core = record s.core {
            body = record s.core.body {
              tasks = first_tasks s.machine slot;
              scopes = first_scopes;
            };
          };
        }) }
    {
        self.counts = first_counts(self.alloc)?;
        self.masters = first_masters(self.alloc)?;
        self.scopes = 1;
        let number = self.slots.number()?;
        let main = self.slots.code().main();
        let steps = self.posts.setup().steps;
        self.slots.plant(
            self.alloc,
            steps,
            main,
            &[],
            TaskId { core: 0, number },
            ROOT,
            0,
        )
    }

    /// A core before its first event, with the slot in which main stands at core 0. It is an error where the program
    /// has too many words for a run.
    #[tactic(auto, using(crate::proofs::Beginning::other_core))]
    pub fn open(
        alloc: Global,
        setup: Setup,
        me: u64,
        code: &'a Code<'a>,
    ) -> Result<(State<'a>, u64), AllocError>
        requires setup { IsSetup setup }
        requires core { me < setup.cores }
        ensures seen { let machine = machine_of setup code.now.program in IfOk result (λ opened. seen_of opened.0
            ≡ before_all machine me (seen_of opened.0).heap (opening_core machine opened.1 me)) }
        ensures heap { IfOk result (λ opened. me ≡ 0
            → (seen_of opened.0).heap ≡ (opening code.now.program).heap) }
    {
        let layout = layout_of(setup, code)?;
        let mut state = State::unused(alloc, setup, me, code, &layout)?;
        if me > 0 {
            return Ok((state, 0));
        }
        let slot = state.begin_main()?;
        Ok((state, slot))
    }
}

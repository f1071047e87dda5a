//! A core with its rings.
ghost use Rattle.std.specs.Prelude.{◌≡◌, ◌<◌, ℕ, IfOk, length};
ghost use Rattle.std.specs.Coded.{codes, coded_ℕ};
ghost use Rattle.std.specs.FinMap as fin;
ghost use Rattle.std.specs.Ordering.{nat_cmp};
ghost use Rattle.gr_syntax.specs.contracts.syntax.Stmt as stmt;
ghost use Rattle.gr_view.specs.Places.{at_place, put};
ghost use Rattle.gr_mail.specs.Rings.{cores, known_from};
ghost use Rattle.gr_serves.specs.Heaps.{KnowsHeap};
ghost use Rattle.gr_core.specs.CoreView.{Carries, run_in};
ghost use Rattle.gr_core.specs.Runs.{IsRun};

use crate::making::make;
use crate::packets::no_packets;
use crate::running::Running;
use gr_code::Code;
use gr_lang::{Pairs, Sequence, Words};
use gr_machine::{CoreEnd, Event, Journal, Setup};
use gr_mail::{Mail, meet};
use gr_reduce::Reducers;
use gr_state::State;
use std::alloc::{AllocError, Global};

/// A core in the course of a run, with its rings and its journal. Its journal is a local run that leads to its state,
/// takes the packets that came over its rings, and ships those that went.
#[derive(Drop)]
pub struct Core<'a> {
    pub(crate) mail: Mail,
    /// In a box, so that a core moves as a few words.
    pub(crate) running: Box<Running<'a>>,
    /// Room for a number for each core.
    pub(crate) left: Vec<u64>,
    ghost runs: { IsRun (run_in running.value) } by { Prim.hlevel (codes, stmt.the_row.coded, fin.code {R = nat_cmp} coded_ℕ coded_ℕ) },
    ghost heap: { KnowsHeap (run_in running.value).seen },
    ghost carries: { Carries mail (run_in running.value) },
    ghost room: { length left.items ≡ cores mail },
}

/// A core after an event, and whether that was made.
#[derive(Drop)]
pub struct Stepped<'a> {
    pub core: Core<'a>,
    pub done: bool,
}

/// The number for a core is how many packets from it are known to be under way.
#[tactic(auto, using(gr_view::proofs::Puts::at_lists))]
fn note_known(mail: &Mail, left: &mut Vec<u64>, core: usize)
    requires { core < length left.old.items }
    ensures len { length left.new.items ≡ length left.old.items }
    ensures known { at_place 0 left.new.items
        ≡ put (at_place 0 left.old.items) core (length (known_from mail.now core)) }
{
    left[core] = mail.known(core as u64) as u64;
}

/// How many packets from each core are known to be under way, in the room for a number for each core. It takes no memory.
#[tactic(auto, using(crate::proofs::Known::known_more))]
fn count_known(mail: &Mail, left: Vec<u64>) -> Vec<u64>
    ensures { (core : ℕ) → core < length left.items
        → at_place 0 result.items core ≡ length (known_from mail.now core) }
{
    let mut left = left;
    for core in 0..left.len() {
        note_known(mail, &mut left, core);
    }
    left
}

/// Room for a number for each of so many cores.
fn room(alloc: Global, cores: u64) -> Result<Vec<u64>, AllocError>
    ensures { IfOk result (λ left. length left.items ≡ cores) }
{
    let mut left = Vec::new(alloc);
    'cores: for _ in 0..cores {
        left.push(0)?;
    }
    Ok(left)
}

impl<'a> Core<'a> {
    ghost use Rattle.std.specs.Prelude.{◌≡◌, ◌<◌, ◌==◌, ℕ, IfNone, IfOk, IfSome, IsOk, None, OnOk, if◌then◌else◌, length, nat_le, true};
    ghost use Rattle.gr_machine.specs.Enabled.{enabled};
    ghost use Rattle.gr_machine.specs.LocalRuns.{IsLocalRun, end_in};
    ghost use Rattle.gr_machine.specs.Machines.{home, machine_of, place};
    ghost use Rattle.gr_posts.specs.Posts.{IsSetup};
    ghost use Rattle.std.specs.List.Sorted.{IsStrictlySortedBy};
    ghost use Rattle.std.specs.Map.{keys_of};
    ghost use Rattle.gr_vector.specs.Parts.{part_of};
    ghost use Rattle.gr_store.specs.Stores.{Lists};
    ghost use Rattle.gr_mail.specs.Rings.{AreJoined, HaveMet, LookedAt, SameRings, cores, known_from, owner};
    ghost use Rattle.gr_view.specs.Places.{at_place};
    ghost use Rattle.gr_core.specs.Cores.{mail_of, run_of};
    ghost use Rattle.gr_core.specs.Mails.{IsUnused, NoneForgotten, SameKnownUnless, WaitsUnless};
    ghost use Rattle.gr_core.specs.Runs.{MadeOr, end_of, opened_run};

    /// The core of this number before its first event, with mail over which nothing was sent. It is an error where the
    /// program has too many words for a run.
    #[tactic(auto, using(crate::proofs::Beginning::when_opened))]
    pub fn start(
        alloc: Global,
        setup: Setup,
        me: u64,
        code: &'a Code<'a>,
        mail: Mail,
    ) -> Result<Core<'a>, AllocError>
        requires setup { IsSetup setup }
        requires core { me < setup.cores }
        requires mail { IsUnused setup me mail }
        ensures opened { IfOk result (λ core. let run = run_of core in
            run ≡ opened_run (machine_of setup code.now.program) me run.seen.heap run.first) }
        ensures mail { IfOk result (λ core. mail_of core ≡ mail) }
    {
        let (state, first) = State::open(alloc, setup, me, code)?;
        let received = no_packets(alloc, setup.cores)?;
        let sent = no_packets(alloc, setup.cores)?;
        let left = room(alloc, setup.cores)?;
        let running = Running {
            first,
            state,
            journal: Journal::new(alloc),
            received,
            sent,
        };
        let running = Box::new(alloc, running)?;
        Ok(Core {
            mail,
            running,
            left,
        })
    }

    /// Whether the core may make an event: it isn't halted, its clock is below the limit, and there is what the event
    /// needs. Whether a packet has come for a Take isn't asked.
    pub fn enabled(&self, event: Event) -> bool
        ensures { let s = (run_of self.now).seen in result ≡ enabled s.machine s.me s.core event }
    {
        self.running.state.enabled(event)
    }

    /// Makes an event that the core may make. It isn't done, and the core is as before, only where no packet to be taken
    /// is known, or no room for one that is to be shipped.
    pub fn step(self, event: Event, reducers: &Reducers) -> Result<Stepped<'a>, AllocError>
        requires { let s = (run_of self).seen in enabled s.machine s.me s.core event ≡ true }
        ensures made { IfOk result (λ stepped.
            MadeOr (run_of self.entry) event (run_of stepped.core) stepped.done) }
        ensures waits { IfOk result (λ stepped.
            WaitsUnless stepped.done (mail_of self.entry) event) }
        ensures rings { IfOk result (λ stepped. SameRings (mail_of self.entry) (mail_of stepped.core)) }
        ensures kept { IfOk result (λ stepped.
            NoneForgotten (mail_of self.entry) (mail_of stepped.core)) }
        ensures same { IfOk result (λ stepped.
            SameKnownUnless stepped.done (mail_of self.entry) (mail_of stepped.core)) }
    {
        let Core {
            mut mail,
            mut running,
            left,
        } = self;
        let done = make(&mut mail, &mut *running, event, reducers)?;
        Ok(Stepped {
            core: Core {
                mail,
                running,
                left,
            },
            done,
        })
    }

    /// Two cores meet: all packets in the rings between them are known afterwards, and so is each slot that holds none.
    /// Nothing else changes. It takes no memory.
    pub fn meet(one: &mut Core<'a>, other: &mut Core<'a>) -> Result<(), AllocError>
        requires { AreJoined (mail_of one.old) (mail_of other.old) }
        ensures ok { IsOk result }
        ensures one { run_of one.new ≡ run_of one.old }
        ensures other { run_of other.new ≡ run_of other.old }
        ensures looked { LookedAt (owner (mail_of other.old)) (mail_of one.old) (mail_of one.new) }
        ensures back { LookedAt (owner (mail_of one.old)) (mail_of other.old) (mail_of other.new) }
        ensures met { HaveMet (mail_of one.new) (mail_of other.new) × HaveMet (mail_of other.new) (mail_of one.new) }
        ensures kept { NoneForgotten (mail_of one.old) (mail_of one.new) }
        ensures kept_back { NoneForgotten (mail_of other.old) (mail_of other.new) }
    {
        meet(&mut one.mail, &mut other.mail)
    }

    /// The number of the core.
    pub fn me(&self) -> u64
        ensures { result ≡ (run_of self.now).seen.me }
    {
        self.running.state.posts.me()
    }

    /// The number of cores.
    pub fn cores(&self) -> u64
        ensures { result ≡ (run_of self.now).seen.machine.setup.cores }
    {
        self.running.state.posts.setup().cores
    }

    /// The clock.
    pub fn clock(&self) -> u64
        ensures { result ≡ (run_of self.now).seen.core.clock }
    {
        self.running.state.clock
    }

    /// Whether a task of the core is trapped.
    pub fn trapped(&self) -> bool
        ensures { result ≡ (run_of self.now).seen.core.body.stops.trapped }
    {
        self.running.state.trapped
    }

    /// Whether the core has passed the root scope.
    pub fn passed(&self) -> bool
        ensures { result ≡ (run_of self.now).seen.core.body.stops.passed }
    {
        self.running.state.passed
    }

    /// Whether as many messages wait for a core as fill a packet.
    pub fn full(&self, dest: u64) -> bool
        ensures { let s = (run_of self.now).seen in
            result ≡ nat_le s.machine.setup.limit (length (s.core.buffers dest)) }
    {
        self.running.state.posts.setup().limit <= self.running.state.posts.waiting(dest)
    }

    /// Whether the clock has come to the limit of events.
    pub fn spent(&self) -> bool
        ensures { let s = (run_of self.now).seen in
            result ≡ nat_le s.machine.setup.events s.core.clock }
    {
        self.running.state.posts.setup().events <= self.running.state.clock
    }

    /// The word at an address; none where its home is another core, or where there is no word of that address.
    pub fn word(&self, at: u64) -> Option<u64>
        ensures { let s = (run_of self.now).seen in result ≡ (if home s.machine at == s.me
            then s.core.body.words.segment (place s.machine at) else None) }
    {
        let posts = &self.running.state.posts;
        if posts.home(at) == posts.me() {
            self.running.state.store.word(posts.place(at))
        } else {
            None
        }
    }

    /// The keys of a set that lie here, each with 0, or of a map with their words, by rising key; the positions of a
    /// vector that lie here with their words, by rising position; nothing for another object.
    pub fn held(&self, object: u64) -> Result<Pairs, AllocError>
        ensures keys { let body = (run_of self.now).seen.core.body in IfNone (body.vectors.vectors object)
            (IfOk result (λ pairs. Lists pairs (body.words.shards object))) }
        ensures words { let body = (run_of self.now).seen.core.body in IfSome (body.vectors.vectors object)
            (λ vector. IfOk result (λ pairs. part_of pairs ≡ vector.part)) }
        ensures rising { let body = (run_of self.now).seen.core.body in IfSome (body.vectors.vectors object)
            (λ vector. IfOk result (λ pairs. IsStrictlySortedBy nat_cmp (keys_of pairs))) }
    {
        let state = &self.running.state;
        match state.vectors.get(object) {
            Some(vector) => vector.sorted(state.alloc),
            None => state.store.sorted(state.alloc, object),
        }
    }

    /// What is left of the core: the end of a local run. It takes no memory.
    pub fn finish(self) -> CoreEnd
        ensures end { end_in result ≡ end_of (run_of self.entry) }
        ensures left { (core : ℕ) → core < cores (mail_of self.entry)
            → at_place 0 result.left core ≡ length (known_from (mail_of self.entry) core) }
        ensures run { IsLocalRun (run_of self.entry).seen.machine (end_in result) }
    {
        let Core {
            mail,
            running,
            left,
        } = self;
        let left = count_known(&mail, left);
        let Running {
            first,
            state,
            journal,
            received,
            sent,
        } = Box::into_inner(running);
        let core = state.posts.me();
        CoreEnd {
            core,
            clock: state.clock,
            first,
            journal,
            sent: Sequence::from_vec(sent),
            received: Sequence::from_vec(received),
            marks: state.marks,
            counts: state.done,
            left: Words::from_vec(left),
        }
    }
}

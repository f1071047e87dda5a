//! The messages at a core.
ghost use Rattle.std.specs.Prelude.{◌≡◌, ◌<◌, ◌≤◌, ◌++◌, IfOk, OnOk, length, slice_get, take};
ghost use Rattle.gr_msg.specs.declared.opened.TheConstants.{MAX_CLOCK};
ghost use Rattle.gr_work.specs.Queues.{is_empty};
ghost use Rattle.gr_addr.specs.Dealing.{home_of, place_of};
ghost use Rattle.gr_machine.specs.Events.{letters_from};
ghost use Rattle.gr_posts.specs.Posts.{IsSetup, delivered, no_posts, posted};
ghost use Rattle.gr_posts.specs.Posts.{shipped_to, without_first};
ghost use Rattle.gr_posts.specs.PostView.{posts_in};

use crate::fits::fits;
use gr_agg::Aggregator;
use gr_machine::Setup;
use gr_msg::{Messages, Msg, Packet};
use std::alloc::{AllocError, Global};
use std::collections::VecDeque;
use std::marker::Model;

/// A message in an inbox, with the core that sent it.
#[derive(Drop)]
pub struct Letter {
    pub from: u64,
    pub message: Msg,
}

impl Model for Letter {
    ghost use Rattle.gr_machine.specs.States.{Letter as Shown};

    ghost Value = { Shown };

    ghost view = { λ letter. record { from = letter.from; message = letter.message } };
}

/// The numbers of the run and of this core, the messages to it that haven't been served, and those to each other
/// core that haven't been shipped.
#[derive(Drop)]
pub struct Posts {
    setup: Setup,
    me: u64,
    inbox: VecDeque<Letter>,
    buffers: Aggregator,
}

impl Model for Posts {
    ghost use Rattle.gr_posts.specs.PostView.{IsPosts, PostsData};

    ghost Value = { PostsData };

    ghost view = { λ posts. record {
      setup = posts.setup;
      me = posts.me;
      inbox = posts.inbox.items;
      buffers = posts.buffers;
    } };

    ghost invariant = { λ posts. IsPosts (record {
      setup = posts.setup;
      me = posts.me;
      inbox = posts.inbox.items;
      buffers = posts.buffers;
    }) };
}

/// Puts messages from a core last into an inbox.
fn deliver_all(
    inbox: &mut VecDeque<Letter>,
    from: u64,
    messages: Messages,
) -> Result<(), AllocError>
    ensures { OnOk result (inbox.new.items ≡ inbox.old.items ++ letters_from from messages) }
{
    for message in messages.into_vec() {
        inbox.push_back(Letter { from, message })?;
    }
    Ok(())
}

impl Posts {
    /// No messages, at the core of this number.
    pub fn new(alloc: Global, setup: Setup, me: u64) -> Result<Posts, AllocError>
        requires setup { IsSetup setup }
        requires core { me < setup.cores }
        ensures { IfOk result (λ posts. posts_in posts ≡ no_posts setup me) }
    {
        let buffers = Aggregator::new(alloc, setup.cores, setup.limit)?;
        Ok(Posts {
            setup,
            me,
            inbox: VecDeque::new(alloc),
            buffers,
        })
    }

    /// The numbers of the run.
    pub fn setup(&self) -> Setup
        ensures value { result ≡ (posts_in self.now).setup }
        ensures ranges { IsSetup result }
    {
        self.setup
    }

    /// The number of this core.
    pub fn me(&self) -> u64
        ensures value { result ≡ (posts_in self.now).me }
        ensures core { result < (posts_in self.now).setup.cores }
    {
        self.me
    }

    /// The core at which the word of an address lies.
    pub fn home(&self, at: u64) -> u64
        ensures value { let setup = (posts_in self.now).setup in
            result ≡ home_of setup.cores setup.block at }
        ensures core { result < (posts_in self.now).setup.cores }
    {
        at / self.setup.block % self.setup.cores
    }

    /// The place of the word of an address among the words of its core.
    #[tactic(auto, using(gr_addr::proofs::Dealt::place_fits))]
    pub fn place(&self, at: u64) -> u64
        ensures { let setup = (posts_in self.now).setup in
            result ≡ place_of setup.cores setup.block at }
    {
        at / (self.setup.block * self.setup.cores) * self.setup.block + at % self.setup.block
    }

    /// Sends a message to a core. It is an error where there is no such core, or where a message to another core
    /// doesn't fit a packet.
    pub fn send(&mut self, to: u64, message: Msg) -> Result<(), AllocError>
        ensures { OnOk result (posts_in self.new ≡ posted (posts_in self.old) to message) }
    {
        if to == self.me {
            self.inbox.push_back(Letter { from: to, message })?;
            return Ok(());
        }
        if to < self.setup.cores && fits(&message) {
            return self.buffers.add(to, message);
        }
        Err(AllocError)
    }

    /// Takes the first letter out of the inbox; none where it is empty.
    pub fn next(&mut self) -> Option<Letter>
        ensures first { result ≡ slice_get (posts_in self.old).inbox 0 }
        ensures rest { posts_in self.new ≡ without_first (posts_in self.old) }
    {
        self.inbox.pop_front()
    }

    /// Whether the inbox is empty.
    pub fn has_none(&self) -> bool
        ensures { result ≡ is_empty (posts_in self.now).inbox }
    {
        self.inbox.is_empty()
    }

    /// Puts the messages of a packet from a core last into the inbox.
    pub fn deliver(&mut self, from: u64, messages: Messages) -> Result<(), AllocError>
        ensures { OnOk result (posts_in self.new ≡ delivered (posts_in self.old) from messages) }
    {
        deliver_all(&mut self.inbox, from, messages)
    }

    /// How many messages wait for another core; 0 where there is no such core.
    pub fn waiting(&self, dest: u64) -> u64
        ensures { result ≡ length ((posts_in self.now).buffers dest) }
    {
        self.buffers.waiting(dest)
    }

    /// The next packet to another core, for which messages wait, with this clock. They stay.
    pub fn front(&self, alloc: Global, dest: u64, clock: u64) -> Result<Packet, AllocError>
        requires core { dest < (posts_in self.now).setup.cores }
        requires some { 0 < length ((posts_in self.now).buffers dest) }
        requires clock { clock ≤ MAX_CLOCK }
        ensures { let posts = posts_in self.now in IfOk result (λ packet. packet
            ≡ record { clock = clock; messages = take posts.setup.limit (posts.buffers dest) }) }
    {
        self.buffers.front(alloc, dest, clock)
    }

    /// Removes the messages of that packet. It takes no memory.
    pub fn ship(&mut self, dest: u64)
        requires core { dest < (posts_in self.old).setup.cores }
        requires some { 0 < length ((posts_in self.old).buffers dest) }
        ensures { posts_in self.new ≡ shipped_to (posts_in self.old) dest }
    {
        self.buffers.drop_front(dest);
    }
}

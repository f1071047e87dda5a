//! The state of a core, and the two ways in which an event tells something.
ghost use Rattle.std.specs.Prelude.{◌≡◌, OnOk};
ghost use Rattle.gr_machine.specs.Counting.{is_closed, is_gift};
ghost use Rattle.gr_courses.specs.Seen.{with_mark, with_send};
ghost use Rattle.gr_state.specs.StateView.{seen_of};

use crate::numbers::counted;
use crate::steals::Steals;
use gr_combining::Combining;
use gr_event::{LocalCounts, Masters};
use gr_machine::{Counts, Mark, Marks, StampedMark};
use gr_msg::Msg;
use gr_posts::Posts;
use gr_slots::Slots;
use gr_store::Store;
use gr_turns::Vectors;
use gr_work::Work;
use std::alloc::{AllocError, Global};

/// A core but for its packets and its journal: its clock; its messages; its tasks and units; what it counts of
/// scopes, the masters of those whose home it is, and the number of the next; what lies here; the calls that are
/// combined; its vectors; who asks for work; why it stops; and its marks, with what it has done, in numbers.
#[derive(Drop)]
pub struct State<'a> {
    pub alloc: Global,
    pub clock: u64,
    pub posts: Posts,
    pub slots: Slots<'a>,
    pub work: Work,
    pub counts: LocalCounts,
    pub masters: Masters,
    pub scopes: u64,
    pub store: Store,
    pub combining: Combining,
    pub vectors: Vectors,
    pub steals: Steals,
    pub trapped: bool,
    pub passed: bool,
    pub marks: Marks,
    pub done: Counts,
}

/// Whether a message gives a unit of work.
fn is_gift(message: &Msg) -> bool
    ensures { result ≡ is_gift message.now }
{
    matches!(message, Msg::StealGive { .. })
}

/// Whether a batch has gone off.
fn is_closed(mark: &Mark) -> bool
    ensures { result ≡ is_closed mark.now }
{
    matches!(mark, Mark::Closed { .. })
}

impl<'a> State<'a> {
    /// Sends a message to a core. It is an error where there is no such core, or where a message to another core
    /// doesn't fit a packet.
    pub fn send(&mut self, to: u64, message: Msg) -> Result<(), AllocError>
        ensures { OnOk result (seen_of self.new
            ≡ with_send (seen_of self.old) (record { to = to; message = message })) }
    {
        self.done.gives = counted(self.done.gives, is_gift(&message))?;
        self.posts.send(to, message)
    }

    /// Leaves a mark.
    pub fn mark(&mut self, mark: Mark) -> Result<(), AllocError>
        ensures { OnOk result (seen_of self.new ≡ with_mark (seen_of self.old) mark) }
    {
        self.done.batches = counted(self.done.batches, is_closed(&mark))?;
        self.marks.push(StampedMark {
            clock: self.clock,
            mark,
        })
    }
}

//! The messages that wait for one core.
ghost use Rattle.std.specs.Prelude.{◌≡◌, ◌-◌, ◌<◌, ◌≤◌, ◌++◌, ◌∷◌, [], IfNone, IfOk, IfSome, OnErr, OnOk, drop, length, slice_set, take};
ghost use Rattle.gr_msg.specs.Ranges.{Fits};
ghost use Rattle.gr_msg.specs.declared.message.Msg.TheVariants.{Complete};
ghost use Rattle.gr_agg.specs.Buffers.{add_last, sum_with, summed};

use gr_msg::{MAX_CLOCK, MAX_MESSAGES, Msg, Packet, ScopeId, encode_slices};
use std::alloc::{AllocError, Global};
use std::collections::VecDeque;
use std::marker::Model;

/// Messages in the order in which they were sent, each of which a packet can have.
#[derive(Drop)]
pub struct Buffer {
    queue: VecDeque<Msg>,
}

impl Model for Buffer {
    ghost use Rattle.std.specs.Prelude.{All, List};
    ghost use Rattle.gr_msg.specs.declared.message.Msg.{Msg as Message};
    ghost use Rattle.gr_msg.specs.Ranges.{Fits};

    ghost Value = { List Message };

    ghost view = { λ buffer. buffer.queue.items };

    ghost invariant = { λ buffer. All Fits buffer.queue.items };
}

/// The sum of two counts of one scope, where it fits a word.
fn summed(one: ScopeId, before: u64, other: ScopeId, more: u64) -> Option<u64>
    ensures { result ≡ summed one before other more }
{
    if one.core == other.core && one.number == other.number {
        before.checked_add(more)
    } else {
        None
    }
}

/// The count of a message with that of one more Complete, where they can be added together.
fn sum_with(message: &Msg, scope: ScopeId, count: u64) -> Option<u64>
    ensures sum { result ≡ sum_with message.now scope count }
    ensures more { IfSome result (λ sum. count ≤ sum) }
{
    match message {
        Msg::Complete {
            scope: one,
            count: before,
        } => summed(*one, *before, scope, count),
        _ => None,
    }
}

/// Puts a message in place of the last one.
fn set_last(queue: &mut VecDeque<Msg>, message: Msg)
    requires { 0 < length queue.old.items }
    ensures { queue.new.items ≡ slice_set queue.old.items (length queue.old.items - 1) message }
{
    let last = queue.len() - 1;
    queue[last] = message;
}

impl Buffer {
    /// No messages. It takes no memory.
    pub fn new(alloc: Global) -> Buffer
        ensures { result ≡ [] }
    {
        Buffer {
            queue: VecDeque::new(alloc),
        }
    }

    /// The number of messages.
    pub fn len(&self) -> usize
        ensures { result ≡ length self.now }
    {
        self.queue.len()
    }

    #[tactic(auto, using(crate::proofs::Ends::all_kept))]
    fn push(&mut self, message: Msg) -> Result<(), AllocError>
        requires { Fits message }
        ensures ok { OnOk result (self.new ≡ self.old ++ message ∷ []) }
        ensures err { OnErr result (self.new ≡ self.old) }
    {
        self.queue.push_back(message)?;
        Ok(())
    }

    #[tactic(auto, using(crate::proofs::Ends::all_kept))]
    fn set_last(&mut self, message: Msg)
        requires some { 0 < length self.old }
        requires fits { Fits message }
        ensures { self.new ≡ slice_set self.old (length self.old - 1) message }
    {
        set_last(&mut self.queue, message);
    }

    /// The count of the last message with that of one more Complete, where they can be added together.
    #[tactic(auto, using(crate::proofs::Ends::at_ends))]
    fn sum_with_last(&self, scope: ScopeId, count: u64) -> Option<u64>
        ensures some { IfSome result (λ sum. (0 < length self.now) × (count ≤ sum)) }
        ensures sum { IfSome result (λ sum. add_last self.now (Complete scope count)
            ≡ slice_set self.now (length self.now - 1) (Complete scope sum)) }
        ensures none { IfNone result (add_last self.now (Complete scope count)
            ≡ self.now ++ Complete scope count ∷ []) }
    {
        match self.queue.back() {
            Some(last) => sum_with(last, scope, count),
            None => None,
        }
    }

    /// A Complete is added to one of its scope that is last, where the sum fits a word. Else it goes last.
    fn add_complete(&mut self, scope: ScopeId, count: u64) -> Result<(), AllocError>
        requires { Fits (Complete scope count) }
        ensures ok { OnOk result (self.new ≡ add_last self.old (Complete scope count)) }
        ensures err { OnErr result (self.new ≡ self.old) }
    {
        match self.sum_with_last(scope, count) {
            Some(sum) => {
                self.set_last(Msg::Complete { scope, count: sum });
                Ok(())
            }
            None => self.push(Msg::Complete { scope, count }),
        }
    }

    /// Puts a message last. A Complete is added to one of its scope that is last. Unchanged where there is no memory.
    #[tactic(auto, using(crate::proofs::Ends::at_ends))]
    pub fn add(&mut self, message: Msg) -> Result<(), AllocError>
        requires { Fits message }
        ensures ok { OnOk result (self.new ≡ add_last self.old message) }
        ensures err { OnErr result (self.new ≡ self.old) }
    {
        match message {
            Msg::Complete { scope, count } => self.add_complete(scope, count),
            other => self.push(other),
        }
    }

    /// A packet of the oldest messages, as many as it may have.
    pub fn front(&self, alloc: Global, clock: u64, limit: usize) -> Result<Packet, AllocError>
        requires some { 0 < length self.now }
        requires clock { clock ≤ MAX_CLOCK }
        requires limit { (1 ≤ limit) × (limit ≤ MAX_MESSAGES) }
        ensures { IfOk result (λ packet.
            packet ≡ record { clock = clock; messages = take limit self.now }) }
    {
        let (older, newer) = self.queue.as_slices();
        let here = limit.min(older.len());
        let there = (limit - here).min(newer.len());
        let packet = encode_slices(alloc, clock, &older[..here], &newer[..there])?;
        Ok(packet)
    }

    #[tactic(auto, using(crate::proofs::Ends::all_kept))]
    fn drop_first(&mut self)
        ensures { self.new ≡ drop 1 self.old }
    {
        let _ = self.queue.pop_front();
    }

    /// Drops so many of the oldest messages, or all.
    pub fn drop_front(&mut self, limit: usize)
        ensures { self.new ≡ drop limit self.old }
    {
        let count = limit.min(self.len());
        'oldest: for _ in 0..count {
            self.drop_first();
        }
    }
}

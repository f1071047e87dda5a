// A source and a sink over memory that can be made to fail at chosen calls, for tests.
ghost use Rattle.std.specs.Prelude.{◌≡◌, ℕ, ◌+◌, ◌-◌, ◌<◌, ◌≤◌, ◌↔◌, ◌++◌, List, [], Option, Some, drop, take, length, vec_len, vec_capacity, IfOk, OnErr, IsErr, Contains, min, ◌⊎◌};
ghost use Rattle.std.specs.Io.{ReadsAtMost};
ghost use Rattle.std.specs.Io.KnownBytes.{ReadConsumes, WriteAppends};
ghost use Rattle.gr_io.specs.Faults.{HasCause, CountsFault};
ghost use Rattle.gr_io.specs.Amounts.{TakesSome};
ghost use Rattle.gr_io.specs.Memory.{SourceState, new_source, after_read, after_failed_read, SinkState, new_sink, after_write, after_failed_write, Refuses};

use crate::device::{Failed, Sink, Source};
use std::alloc::{AllocError, Global};
use std::marker::Model;

/// A source that gives the bytes it holds, a piece at a time.
#[derive(Drop)]
pub struct MemSource {
    bytes: Vec<u8>,
    at: usize,
    piece: usize,
    fails: Vec<u64>,
    calls: u64,
    faults: u64,
}

impl Model for MemSource {
    ghost Value = { SourceState };

    ghost view = { λ s. record {
      left = drop s.at s.bytes.items;
      piece = s.piece;
      fails = s.fails.items;
      calls = s.calls;
      faults = s.faults;
    } };

    ghost invariant = { λ s. (s.at ≤ vec_len s.bytes) × (0 < s.piece) };
}

impl MemSource {
    /// A source of `bytes` that gives at most `piece` of them, 1 or more, at a read. The reads
    /// whose numbers, counted from 0, stand in `fails` fail.
    pub fn new(bytes: Vec<u8>, piece: usize, fails: Vec<u64>) -> MemSource
        requires { 0 < piece }
        ensures { result ≡ new_source bytes.items piece fails.items }
    {
        MemSource {
            bytes,
            at: 0,
            piece,
            fails,
            calls: 0,
            faults: 0,
        }
    }
}

// Copies the first `count` bytes of `from` to the front of `buf`.
fn copy_front(from: &[u8], buf: &mut [u8], count: usize)
    requires held { count ≤ length from.now }
    requires fits { count ≤ length buf.old }
    ensures front { take count buf.new ≡ take count from.now }
    ensures rest { drop count buf.new ≡ drop count buf.old }
{
    buf[..count].copy_from_slice(&from[..count]);
}

impl Source for MemSource {
    ghost left = { λ s. Some s.left };

    ghost faults = { λ s. s.faults };

    fn read(&mut self, buf: &mut [u8]) -> Result<usize, Failed>
        ensures bound { ReadsAtMost result buf.new }
        ensures bytes { ReadConsumes (Some self.old.left) (Some self.new.left) result buf.new }
        ensures cause { HasCause self.old.faults self.new.faults result }
        ensures counted { CountsFault self.old.faults self.new.faults result }

        // Just the chosen reads fail, and each of the others gives all that it may.
        ensures fails { IsErr result ↔ Contains self.old.fails self.old.calls }
        ensures count { IfOk result (λ count.
            count ≡ min (min (length self.old.left) self.old.piece) (length buf.old)) }

        // Only the front of the buffer changes, and nothing of it where the read fails.
        ensures rest { IfOk result (λ count. drop count buf.new ≡ drop count buf.old) }
        ensures kept { OnErr result (buf.new ≡ buf.old) }

        // What the source is afterwards.
        ensures ok { IfOk result (λ count. self.new ≡ after_read self.old count) }
        ensures err { OnErr result (self.new ≡ after_failed_read self.old) }
    {
        let fails = self.fails.contains(&self.calls);
        self.calls = self.calls.saturating_add(1);
        if fails {
            self.faults = self.faults.saturating_add(1);
            return Err(Failed);
        }
        let left = self.bytes.len() - self.at;
        let count = left.min(self.piece).min(buf.len());
        copy_front(&self.bytes[self.at..], buf, count);
        self.at += count;
        Ok(count)
    }
}

/// A sink that keeps the bytes it gets, in room that it reserved when it was made.
#[derive(Drop)]
pub struct MemSink {
    bytes: Vec<u8>,
    room: usize,
    piece: usize,
    fails: Vec<u64>,
    calls: u64,
    faults: u64,
}

impl Model for MemSink {
    ghost Value = { SinkState };

    ghost view = { λ s. record {
      got = s.bytes.items;
      room = s.room;
      piece = s.piece;
      fails = s.fails.items;
      calls = s.calls;
      faults = s.faults;
    } };

    ghost invariant = { λ s. (vec_len s.bytes + s.room ≤ vec_capacity s.bytes) × (0 < s.piece) };
}

impl MemSink {
    /// A sink with room for `room` bytes that takes at most `piece` bytes, 1 or more, at a write.
    /// The writes whose numbers, counted from 0, stand in `fails` fail, and so does a write of a
    /// byte or more once no room is left.
    ///
    /// # Errors
    ///
    /// Want of memory for the room, where there is to be any. A write takes no memory.
    pub fn new(
        alloc: Global,
        room: usize,
        piece: usize,
        fails: Vec<u64>,
    ) -> Result<MemSink, AllocError>
        requires { 0 < piece }
        ensures ok { IfOk result (λ sink. sink ≡ new_sink room piece fails.items) }
        ensures memory { OnErr result (0 < room) }
    {
        let bytes = Vec::with_capacity(alloc, room)?;
        Ok(MemSink {
            bytes,
            room,
            piece,
            fails,
            calls: 0,
            faults: 0,
        })
    }

    /// The bytes that it got so far.
    pub fn bytes(&self) -> &[u8]
        ensures { result.now ≡ self.now.got }
    {
        self.bytes.as_slice()
    }
}

impl Sink for MemSink {
    ghost got = { λ s. Some s.got };

    ghost faults = { λ s. s.faults };

    fn write(&mut self, piece: &[u8]) -> Result<usize, Failed>
        ensures bound { TakesSome result piece.now }
        ensures bytes { WriteAppends (Some self.old.got) (Some self.new.got) result piece.now }
        ensures cause { HasCause self.old.faults self.new.faults result }
        ensures counted { CountsFault self.old.faults self.new.faults result }

        // Just the writes that it refuses fail, and the others take all that they may.
        ensures fails { IsErr result ↔ Refuses self.old piece.now }
        ensures count { IfOk result (λ count.
            count ≡ min (min (length piece.now) self.old.piece) self.old.room) }

        // What the sink is afterwards.
        ensures ok { IfOk result (λ count. self.new ≡ after_write self.old (take count piece.now)) }
        ensures err { OnErr result (self.new ≡ after_failed_write self.old) }
    {
        let fails = self.fails.contains(&self.calls);
        let full = self.room == 0 && !piece.is_empty();
        self.calls = self.calls.saturating_add(1);
        if fails || full {
            self.faults = self.faults.saturating_add(1);
            return Err(Failed);
        }
        let count = piece.len().min(self.piece).min(self.room);
        self.bytes.extend_from_slice(&piece[..count]).unwrap();
        self.room -= count;
        Ok(count)
    }
}

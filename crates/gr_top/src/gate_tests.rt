//! What no clause says: that the workers of a run are at work at once, and that a packet crosses from one to another
//! in the middle of a round. Gates hold cores back, for so long at most; a body that makes one slice after another
//! meets their limit.
use crate::answer::RunEnd;
use crate::call::top;
use gr_io::{MemSink, MemSource};
use gr_machine::{CoreEnd, Event};
use gr_reduce::{Reducer, Reducers};
use gr_round::Gate;
use std::alloc::{AllocError, Global};
use std::rt::HostRuntime;
use std::sync::atomic::{AtomicU64, Ordering};
use std::test::Fail;
use std::thread::Threads;

/// How often a gate looks for another core before it gives up.
const LIMIT: u64 = 1 << 30;

/// Whether the flag is seen before the limit.
fn is_seen(flag: &AtomicU64) -> bool {
    for _ in 0..LIMIT {
        if flag.load(Ordering::SeqCst) == 1 {
            return true;
        }
    }
    false
}

/// Holds each of two cores at its first turn until the other one has come there too.
#[derive(Drop)]
struct Both {
    first: AtomicU64,
    second: AtomicU64,
    met: AtomicU64,
}

impl Gate for Both {
    fn at(&self, core: u64, round: u64, turn: u64) {
        if round > 0 || turn > 0 {
            return;
        }
        let (mine, other) = if core == 0 {
            (&self.first, &self.second)
        } else {
            (&self.second, &self.first)
        };
        mine.store(1, Ordering::SeqCst);
        if is_seen(other) {
            self.met.fetch_add(1, Ordering::SeqCst);
        }
    }
}

/// Holds core 0 at its first turn until core 1 has come to its own, and core 1 there until core 0 has come to its third
/// one, of the same round.
#[derive(Drop)]
struct Behind {
    begun: AtomicU64,
    shipped: AtomicU64,
    seen: AtomicU64,
}

impl Gate for Behind {
    fn at(&self, core: u64, round: u64, turn: u64) {
        if round > 0 {
            return;
        }
        if core == 0 && turn == 0 && is_seen(&self.begun) {
            self.seen.fetch_add(1, Ordering::SeqCst);
        }
        if core == 0 && turn == 2 {
            self.shipped.store(1, Ordering::SeqCst);
        }
        if core == 1 && turn == 0 {
            self.begun.store(1, Ordering::SeqCst);
            if is_seen(&self.shipped) {
                self.seen.fetch_add(1, Ordering::SeqCst);
            }
        }
    }
}

fn strings(alloc: Global, words: &[&str]) -> Result<Vec<String>, AllocError> {
    let mut strings = Vec::new(alloc);
    for word in words {
        strings.push(String::from_str(alloc, word)?)?;
    }
    Ok(strings)
}

/// The end of a run of this text, and what it has written.
fn ran<R: Threads + Sync, G: Gate>(
    rt: &R,
    alloc: Global,
    words: &[&str],
    text: &str,
    gate: &G,
) -> Result<(RunEnd, MemSink), AllocError> {
    let reducers = Reducers::new([
        Reducer::new(0, |one, other| one.wrapping_add(other)),
        Reducer::new(1, |one, other| one.min(other)),
        Reducer::new(2, |one, other| one.max(other)),
        Reducer::new(3, |one, other| one | other),
        Reducer::new(4, |one, other| one & other),
        Reducer::new(5, |one, other| one ^ other),
        Reducer::new(6, |one, _| one),
        Reducer::new(7, |_, other| other),
    ]);
    let words = strings(alloc, words)?;
    let mut source = MemSource::new(
        Vec::from_slice(alloc, text.as_bytes())?,
        4096,
        Vec::new(alloc),
    );
    let mut sink = MemSink::new(alloc, 4096, 4096, Vec::new(alloc))?;
    let end = top(
        rt,
        alloc,
        words.as_slice(),
        reducers,
        &mut source,
        &mut sink,
        gate,
    );
    Ok((end, sink))
}

fn begins_with_take(core: &CoreEnd) -> bool {
    match core.journal.as_slice().first() {
        Some(stamped) => matches!(stamped.event, Event::Take { from: 0 }),
        None => false,
    }
}

/// Whether the first event of core 1 was to take a packet from core 0.
fn took_first(end: &RunEnd) -> bool {
    let Some(world) = &end.world else {
        return false;
    };
    match world.cores.as_slice().get(1) {
        Some(core) => begins_with_take(core),
        None => false,
    }
}

#[test]
fn workers_are_there_at_once(rt: HostRuntime) -> Result<(), Fail> {
    let gate = Both {
        first: AtomicU64::new(0),
        second: AtomicU64::new(0),
        met: AtomicU64::new(0),
    };
    let words = ["run", "--cores", "2"];
    let (end, sink) = ran(&rt, rt.alloc(), &words, "task main() { print 7; }", &gate)?;
    assert_eq!(rt; end.status, 0);
    assert_eq!(rt; sink.bytes(), "7\n".as_bytes());
    assert_eq!(rt; gate.met.load(Ordering::SeqCst), 2);
    Ok(())
}

#[test]
fn a_packet_crosses_within_a_round(rt: HostRuntime) -> Result<(), Fail> {
    let gate = Behind {
        begun: AtomicU64::new(0),
        shipped: AtomicU64::new(0),
        seen: AtomicU64::new(0),
    };
    let words = ["run", "--cores", "2", "--block", "1", "--limit", "1"];
    let text = "array a[2]; task main() { let x = a.add(1, 5); print x; } show a;";
    let (end, sink) = ran(&rt, rt.alloc(), &words, text, &gate)?;
    assert_eq!(rt; end.status, 0);
    assert_eq!(rt; sink.bytes(), "0\narray a: 0 5\n".as_bytes());
    assert_eq!(rt; gate.seen.load(Ordering::SeqCst), 2);
    assert!(rt; took_first(&end));
    Ok(())
}

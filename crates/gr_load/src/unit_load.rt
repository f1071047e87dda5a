//! Loads of a core's units of work.
ghost use Rattle.std.specs.Prelude.{◌<◌};
ghost use Rattle.gr_work.specs.Parts.{CanBeSplit};

use gr_lang::{TaskId, Words};
use gr_msg::{ScopeId, Unit};
use gr_work::Work;
use std::alloc::{AllocError, Global};

const SCOPE: ScopeId = ScopeId { core: 0, number: 1 };

const OWNER: TaskId = TaskId { core: 0, number: 0 };

/// How many units wait at most.
const WAITING: u64 = 1000;

fn single(alloc: Global, target: u64) -> Unit {
    Unit::Single {
        target,
        args: Words::new(alloc),
        scope: SCOPE,
        origin: 0,
        id: OWNER,
    }
}

/// The number of a unit: the target of a single, the first index of a chunk.
fn number(unit: &Unit) -> u64 {
    match unit {
        Unit::Single { target, .. } => *target,
        Unit::Chunk { lo, .. } => *lo,
    }
}

/// What was taken out of a core's units.
#[derive(Clone, Copy)]
struct Taken {
    units: u64,
    sum: u64,
}

impl Taken {
    fn and(self, unit: &Unit) -> Taken {
        Taken {
            units: self.units.wrapping_add(1),
            sum: self.sum.wrapping_add(number(unit)),
        }
    }
}

/// Puts a unit where its number says: last or first of the private units, or among the public ones.
fn put(work: &mut Work, number: u64, unit: Unit) -> Result<(), AllocError> {
    match number % 3 {
        0 => work.push_last(unit),
        1 => work.push_first(unit),
        _ => work.offer(unit),
    }
}

/// Takes out all that waits.
fn drained(work: &mut Work, taken: Taken) -> Taken {
    let mut all = taken;
    for _ in 0..WAITING {
        if let Some(unit) = work.next() {
            all = all.and(&unit);
        }
    }
    all
}

/// So many units are put, and all are taken out again each time that a thousand wait.
pub fn units(alloc: Global, count: u64) -> Result<String, AllocError> {
    let mut work = Work::new(alloc);
    let mut taken = Taken { units: 0, sum: 0 };
    for at in 0..count {
        put(&mut work, at, single(alloc, at))?;
        if at % WAITING == 0 {
            taken = drained(&mut work, taken);
        }
    }
    let all = drained(&mut work, taken);
    let units = all.units;
    let sum = all.sum;
    format!(in alloc; "{units} units, sum {sum}")
}

fn chunk(alloc: Global, lo: u64, hi: u64, grain: u64) -> Unit
    requires indices { lo < hi }
    requires grain { 0 < grain }
    ensures { CanBeSplit result }
{
    Unit::Chunk {
        target: 0,
        args: Words::new(alloc),
        scope: SCOPE,
        origin: 0,
        owner: OWNER,
        lo,
        hi,
        grain,
    }
}

/// Splits a unit where it is a chunk of more than one index; else its index has begun.
fn begin(alloc: Global, work: &mut Work, unit: Unit, taken: Taken) -> Result<Taken, AllocError> {
    match unit {
        Unit::Chunk { lo, hi, .. } if hi > lo && hi - lo > 1 => {
            work.split(chunk(alloc, lo, hi, 1))?;
            Ok(taken)
        }
        other => Ok(taken.and(&other)),
    }
}

/// A loop of so many indices is split until each index is a part of its own.
pub fn indices(alloc: Global, count: u64) -> Result<String, AllocError> {
    let mut work = Work::new(alloc);
    let mut taken = Taken { units: 0, sum: 0 };
    if count > 0 {
        work.push_last(chunk(alloc, 0, count, 1))?;
    }
    for _ in 0..count {
        for _ in 0..2u8 {
            if let Some(unit) = work.next() {
                taken = begin(alloc, &mut work, unit, taken)?;
            }
        }
    }
    let units = taken.units;
    let sum = taken.sum;
    format!(in alloc; "{units} indices, sum {sum}")
}

/// The indices of a unit, which is a chunk.
fn range(alloc: Global, unit: &Unit) -> Result<String, AllocError> {
    match unit {
        Unit::Single { target, .. } => format!(in alloc; "task {target}"),
        Unit::Chunk { lo, hi, .. } => format!(in alloc; "{lo} to {hi}"),
    }
}

/// The parts into which a loop of so many indices is split with a grain: what is kept, and what is given one after
/// another.
pub fn parts(alloc: Global, count: u64, grain: u64) -> Result<String, AllocError> {
    let mut work = Work::new(alloc);
    if count > 0 && grain > 0 {
        work.split(chunk(alloc, 0, count, grain))?;
    }
    let mut text = String::from_str(alloc, "given")?;
    for _ in 0..WAITING {
        if let Some(unit) = work.give() {
            let range = range(alloc, &unit)?;
            text.push_str(format!(in alloc; " {},", range.as_str())?.as_str())?;
        }
    }
    match work.next() {
        Some(unit) => text.push_str(format!(in alloc;
            " kept {}",
            range(alloc, &unit)?.as_str()
        )?.as_str())?,
        None => text.push_str(" nothing kept")?,
    }
    Ok(text)
}
